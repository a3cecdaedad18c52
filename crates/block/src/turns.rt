// What holds of every list of turns in which the replies are those of `translate`. Nothing here runs.
ghost use Rattle.block.specs.AgreementInCode.{AgreementInCode, AgreementOfKeptInCode};

// For every list of turns that meets the premises, each reply being what a caller reads off an answer that the contract of `translate`
// allows: there is one run of the code, and it computes what the manual's run computes.
#[tactic(auto, using(crate::proofs::CodeAgrees::agreement_in_code))]
pub fn agreement_in_code()
    ensures { AgreementInCode }
{}

// The same where blocks are kept while the guest's code changes behind what they span: the manual's run is of the code as it is now.
#[tactic(auto, using(crate::proofs::CodeAgrees::agreement_of_kept_in_code))]
pub fn agreement_of_kept_in_code()
    ensures { AgreementOfKeptInCode }
{}
