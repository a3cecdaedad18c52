// The history, of the code: what calls of this crate's functions leave of one another.

ghost use Rattle.index.specs.HistoryInCode.{HistoryInCode, CallsCanBeMade};

// Take entries of which none is in use, and any calls of `insert`, `empty` and `drop_touched` that meet their contracts. Then `find`
// answers for each key the block that was last inserted for it since it was last freed, or none; and no key is in two entries in use.
#[tactic(auto, using(crate::proofs::InCode::history_in_code))]
pub fn history_in_code()
    ensures { HistoryInCode }
{}

// For any list of operations there are such calls, so `history_in_code` speaks of something.
#[tactic(auto, using(crate::proofs::InCode::calls_can_be_made))]
pub fn calls_can_be_made()
    ensures { CallsCanBeMade }
{}
