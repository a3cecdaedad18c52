// What the exported functions keep while the guest writes to its code, and what may be done with a block that `emuko_index_find` replies
// with. Nothing here is exported.

ghost use Rattle.capi.specs.KeepingInC.{KeepsSpansInC, FoundMayBeEnteredInC, CallsCanBeMade};

// Take entries of which none is in use, and any calls of the exported functions that meet their contracts: translations whose blocks are
// inserted, guest writes each followed by its drop, and emptyings. Then every entry in use is of one of these translations, and in the
// bytes that its block spans the code is what it was then.
#[tactic(auto, using(crate::proofs::KeptInC::keeps_spans_in_c))]
pub fn keeps_spans_in_c()
    ensures { KeepsSpansInC }
{}

// A block that `emuko_index_find` then replies with, its entry being in use, may be entered: what the theorem on kept blocks asks of the
// code holds.
#[tactic(auto, using(crate::proofs::KeptInC::found_may_be_entered_in_c))]
pub fn found_may_be_entered_in_c()
    ensures { FoundMayBeEnteredInC }
{}

// For any list of operations there are such calls, so these theorems speak of something.
#[tactic(auto, using(crate::proofs::KeptInC::calls_can_be_made))]
pub fn calls_can_be_made()
    ensures { CallsCanBeMade }
{}
