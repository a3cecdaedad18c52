// Blocks: where they are left, how long they are and how much of the guest's code they span.

ghost use Rattle.agreement.specs.Laws.{OutputsBlock, Lengths, BothReached, Spans, SpansReached};
ghost use Rattle.agreement.specs.Cases.{CasesHold};

// A block's reply leaves the block at the output's front, and the rest of the output as before.
#[tactic(auto, using(crate::proofs::Laws::Output::outputs_block))]
pub fn outputs_block()
    ensures { OutputsBlock }
{}

// No block is shorter than 67 or longer than 4,099 bytes.
#[tactic(auto, using(crate::proofs::Block::Length::lengths))]
pub fn lengths()
    ensures { Lengths }
{}

// A block of 67 bytes and one of 4,099 are replies.
#[tactic(auto, using(crate::proofs::Checks::Reached::both_reached))]
pub fn both_reached()
    ensures { BothReached }
{}

// The cases that were asked to be proved of the definitions hold: immediates, whole replies with every byte of the block, and placings.
#[tactic(auto, using(crate::proofs::Checks::CasesHold::cases_hold))]
pub fn cases_hold()
    ensures { CasesHold }
{}

// A block spans from 2 to 256 bytes, an even number of them, 2 to 4 for each instruction that it counts, and none that its run did not
// have.
#[tactic(auto, using(crate::proofs::Theorem::Kept::spans))]
pub fn spans()
    ensures { Spans }
{}

// A block that spans 2 bytes for one instruction and one that spans 256 for 64 are replies, each spanning its whole run.
#[tactic(auto, using(crate::proofs::Checks::Reached::spans_reached))]
pub fn spans_reached()
    ensures { SpansReached }
{}
