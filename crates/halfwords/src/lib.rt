// Nothing here runs: how many of all halfwords are of which sort, computed over all of them.
#![tactic(auto)]

ghost use Rattle.halfwords.specs.Sorts.{AllCounted};

// Of the compressed halfwords 2,409 are reserved, one is C.EBREAK, 24,448 are loads and stores, and 22,294 are read in line: 6,206 that
// end a turn and 16,088 that do not.
#[tactic(auto, using(crate::proofs::Counting::all_counted))]
pub fn all_counted()
    ensures { AllCounted }
{}
