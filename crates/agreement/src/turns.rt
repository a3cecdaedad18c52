// Machine and manual agree over every list of turns.

ghost use Rattle.agreement.specs.Statement.Agreement.{Agreement};
ghost use Rattle.agreement.specs.Statement.Kept.{AgreementOfKept};

// Over every list of turns that meets the premises, machine and manual agree: each block that is entered runs to its return, and pc,
// registers and count are the manual's, on the way and at the end.
#[tactic(auto, using(crate::proofs::Theorem::Agreement::agreement))]
pub fn agreement()
    ensures { Agreement }
{}

// The same of blocks that are kept while code changes elsewhere: where the code is what it was in the bytes that a block spans, entering it
// gives the manual's run of the code as it is now.
#[tactic(auto, using(crate::proofs::Theorem::Kept::agreement_of_kept))]
pub fn agreement_of_kept()
    ensures { AgreementOfKept }
{}
