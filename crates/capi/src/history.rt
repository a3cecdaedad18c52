// The history of the exported functions: what calls of `emuko_index_insert`, `emuko_index_empty` and `emuko_index_drop` leave of one
// another, and `emuko_index_find` shows. Nothing here is exported.

ghost use Rattle.capi.specs.HistoryInC.{HistoryInC, CallsCanBeMade};

// Take entries of which none is in use, and any calls of the exported functions that meet their contracts. Then `emuko_index_find` replies
// for each key with the block that was last inserted for it since it was last freed, or with zeros; and no key is in two entries in use.
#[tactic(auto, using(crate::proofs::IndexInC::history_in_c))]
pub fn history_in_c()
    ensures { HistoryInC }
{}

// For any list of operations there are such calls, so `history_in_c` speaks of something.
#[tactic(auto, using(crate::proofs::IndexInC::calls_can_be_made))]
pub fn calls_can_be_made()
    ensures { CallsCanBeMade }
{}
