// Which guest instruction a word or a halfword is, by the manual and by the translator.

ghost use Rattle.agreement.specs.Laws.{TakenAlike, KindsWalk, ExpandsAlike, ExpandsToListed, ImmediatesAlike, Ranges};

// The translator's tests name every word as the manual's listing does where that name is one that is taken, and take no other word.
#[tactic(auto, using(crate::proofs::Laws::Naming::taken_alike))]
pub fn taken_alike()
    ensures { TakenAlike }
{}

// The number of a word's kind says how the walk goes on from it: not at all, behind it, by ending the block, or to the memory helper.
#[tactic(auto, using(crate::proofs::Laws::Needed::kinds_walk))]
pub fn kinds_walk()
    ensures { KindsWalk }
{}

// The translator expands exactly the compressed halfwords that the manual's run reads in line, to the manual's words.
#[tactic(auto, using(crate::proofs::Laws::Expanding::expands_alike))]
pub fn expands_alike()
    ensures { ExpandsAlike }
{}

// What a halfword is read as in line is a word of 32 bits that is straight or ends a block.
#[tactic(auto, using(crate::proofs::Laws::Expanding::expands_to_listed))]
pub fn expands_to_listed()
    ensures { ExpandsToListed }
{}

// The translator's five immediates are the manual's, for every word.
#[tactic(auto, using(crate::proofs::Laws::Immediates::immediates_alike))]
pub fn immediates_alike()
    ensures { ImmediatesAlike }
{}

// Branches reach from -4096 to 4094 and jumps from -1048576 to 1048574, at even distances.
#[tactic(auto, using(crate::proofs::Laws::Immediates::ranges))]
pub fn ranges()
    ensures { Ranges }
{}
