// P <used> <store length> <code length>
ghost use Rattle.std.specs.Prelude.{◌≡◌, ◌≤◌, IfSome};
ghost use Rattle.requests.specs.Lines.{placing_of};

use crate::LENT;
use crate::fields::Fields;

#[derive(Clone, Copy)]
pub struct Placing {
    pub used: usize,
    pub store: usize,
    pub code: usize,
}

// The fields behind the line's letter.
#[tactic(auto, unfolding(crate::specs::Lines::placing_of))]
pub fn read_placing(line: &[u8]) -> Option<Placing>
    ensures fields { result ≡ placing_of line.now }
    ensures fits { IfSome result (λ p. (p.store ≤ LENT) × (p.code ≤ LENT)) }
{
    let mut fields = Fields { line, at: 2 };
    let used = fields.number(10)? as usize;
    let store = fields.next_at_most(LENT)? as usize;
    let code = fields.next_at_most(LENT)? as usize;
    fields.end()?;
    Some(Placing { used, store, code })
}
