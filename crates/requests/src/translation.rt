// T <start hex> <limit> <helper16 hex> <helper_mem hex> <output length> <hhhh,hhhh,... or ->
ghost use Rattle.std.specs.Prelude.{◌≡◌, ◌≤◌, IfSome, length};
ghost use Rattle.requests.specs.Lines.{Asks};

use crate::LENT;
use crate::fields::Fields;

#[derive(Clone, Copy)]
pub struct Translation {
    pub start: u64,
    pub limit: u32,
    pub helper16: u64,
    pub helper_mem: u64,
    pub output: usize,
    pub count: usize,
}

// The fields behind the line's letter; the halfwords go to the front of the lent ones. They are read before limit and output are tested, so
// that they stand there also where the line is refused for one of these alone.
#[tactic(auto, unfolding(crate::specs::Lines::written_of, crate::specs::Lines::asked_of))]
pub fn read_translation(line: &[u8], halfwords: &mut [u16]) -> Option<Translation>
    ensures asks { Asks (length halfwords.old) line.now halfwords.new result }
    ensures fits { IfSome result (λ t. t.output ≤ LENT) }
{
    let mut fields = Fields { line, at: 2 };
    let start = fields.number(16)?;
    let limit = fields.next_number(10)?;
    let helper16 = fields.next_number(16)?;
    let helper_mem = fields.next_number(16)?;
    let output = fields.next_number(10)?;
    fields.pass(b" ")?;
    let count = fields.halfwords(halfwords)?;
    if output > LENT {
        return None;
    }
    Some(Translation {
        start,
        limit: u32::try_from(limit).ok()?,
        helper16,
        helper_mem,
        output: output as usize,
        count,
    })
}
