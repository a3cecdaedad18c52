// What holds of every list of turns in which the replies are those of `emuko_translate`. Nothing here is exported.
ghost use Rattle.capi.specs.AgreementInC.{AgreementInC, AgreementOfKeptInC};

// For every list of turns that meets the premises, each reply being what a caller reads off four numbers and an output that the contract of
// `emuko_translate` allows: there is one run of the blocks, and it computes what the manual's run computes.
#[tactic(auto, using(crate::proofs::ReadInC::agreement_in_c))]
pub fn agreement_in_c()
    ensures { AgreementInC }
{}

// The same where blocks are kept while the guest's code changes behind what they span: the manual's run is of the code as it is now.
#[tactic(auto, using(crate::proofs::ReadInC::agreement_of_kept_in_c))]
pub fn agreement_of_kept_in_c()
    ensures { AgreementOfKeptInC }
{}
