// D <word hex>
ghost use Rattle.std.specs.Prelude.{◌≡◌};
ghost use Rattle.requests.specs.Lines.{decoding_of};

use crate::fields::Fields;

// The word behind the line's letter.
#[tactic(auto, unfolding(crate::specs::Lines::decoding_of))]
pub fn read_decoding(line: &[u8]) -> Option<u32>
    ensures { result ≡ decoding_of line.now }
{
    let mut fields = Fields { line, at: 2 };
    let word = fields.number(16)?;
    fields.end()?;
    u32::try_from(word).ok()
}
