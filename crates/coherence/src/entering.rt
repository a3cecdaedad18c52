// What may be done with a block that is found.

ghost use Rattle.coherence.specs.Entering.{FoundMayBeEntered};
ghost use Rattle.coherence.specs.KeepingInCode.{FoundMayBeEnteredInCode};

// A block that is found under a key may be entered: what the theorem on kept blocks (crate agreement, `agreement_of_kept`) asks of the code
// holds, for a turn with that key's pc, the code being what that satp has now.
#[tactic(auto, using(crate::proofs::Found::found_may_be_entered))]
pub fn found_may_be_entered()
    ensures { FoundMayBeEntered }
{}

// The same of the code: of what `find` answers on entries that calls of `translate`, `insert`, `drop_touched` and `empty` left.
#[tactic(auto, using(crate::proofs::KeptInCode::found_may_be_entered_in_code))]
pub fn found_may_be_entered_in_code()
    ensures { FoundMayBeEnteredInCode }
{}
