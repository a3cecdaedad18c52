// What holds of an index over any list of operations: the theorem on its history.

ghost use Rattle.entry.specs.History.{History};

// In an index that began with no entry in use, find shows for each key the block that was last inserted for it since it was last freed, or
// none; and no key is in two entries in use. This holds over every list of inserts, drops and emptyings.
#[tactic(auto, using(crate::proofs::LastShown::history))]
pub fn history()
    ensures { History }
{}
