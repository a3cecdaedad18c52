// What stays in an index while the guest writes to its code.

ghost use Rattle.coherence.specs.Keeping.{KeepsSpans};
ghost use Rattle.coherence.specs.KeepingInCode.{KeepsSpansInCode, CallsCanBeMade};

// Take entries of which none is in use, and any translations whose blocks are inserted, guest writes each followed by its drop, and
// emptyings. Then every entry in use is of one of these translations, and in the bytes that its block spans the code is what it was then.
#[tactic(auto, using(crate::proofs::Kept::keeps_spans))]
pub fn keeps_spans()
    ensures { KeepsSpans }
{}

// The same of the code: of any calls of `translate`, `insert`, `drop_touched` and `empty` that meet their contracts.
#[tactic(auto, using(crate::proofs::KeptInCode::keeps_spans_in_code))]
pub fn keeps_spans_in_code()
    ensures { KeepsSpansInCode }
{}

// For any list of operations there are such calls, so the theorems of the code speak of something.
#[tactic(auto, using(crate::proofs::Reached::calls_can_be_made))]
pub fn calls_can_be_made()
    ensures { CallsCanBeMade }
{}
