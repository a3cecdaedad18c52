// The first word is looked at before anything is written: a refusal leaves every byte of the output as it was.
ghost use Rattle.std.specs.Prelude.{◌≡◌};
ghost use Rattle.agreement.specs.Translation.Replies.{first};
ghost use Rattle.block.specs.First.{refused};

use crate::Refusal;
use kind::WordKind;
use walk::fetch::{Fetched, fetch};

pub fn first_word(halfwords: &[u16]) -> Result<(), Refusal>
    ensures { result ≡ refused (first halfwords.now) }
{
    match fetch(halfwords, 0)? {
        Fetched::Half(_) => Ok(()),
        Fetched::Word(instr) => match kind::word_kind(instr) {
            WordKind::NotTaken => Err(Refusal::NotTaken(instr)),
            WordKind::Straight | WordKind::Ending | WordKind::MemoryHelper => Ok(()),
        },
    }
}
