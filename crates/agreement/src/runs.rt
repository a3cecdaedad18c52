// Runs of halfwords: the code that has them, and how much of one a translation looks at.

ghost use Rattle.agreement.specs.Laws.{NeedsNoMore, RunsAlike, RunsHeld};

// A run that was fetched no further than what is needed of it is translated as the whole run is.
#[tactic(auto, using(crate::proofs::Laws::Needed::needs_no_more))]
pub fn needs_no_more()
    ensures { NeedsNoMore }
{}

// A run is what stands at its own addresses: code that has changed elsewhere has the same run.
#[tactic(auto, using(crate::proofs::Laws::Runs::runs_alike))]
pub fn runs_alike()
    ensures { RunsAlike }
{}

// Every run of at most 2^63 halfwords is the run of some code, at every address.
#[tactic(auto, using(crate::proofs::Laws::Runs::runs_held))]
pub fn runs_held()
    ensures { RunsHeld }
{}
