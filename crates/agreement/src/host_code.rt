// The model of the processor: how host instructions are written as bytes, and how they are run.

ghost use Rattle.agreement.specs.Laws.{Decodes, Encodes, StepsAlike};

// What the encoder writes decodes to that instruction, whatever follows.
#[tactic(auto, using(crate::proofs::Codec::Encoding::decodes))]
pub fn decodes()
    ensures { Decodes }
{}

// What decodes is byte for byte what the encoder writes, with its operands in range.
#[tactic(auto, using(crate::proofs::Codec::Encoding::encodes))]
pub fn encodes()
    ensures { Encodes }
{}

// Where the statement's relation leads from one state to another without CALL and RET, the function that runs the model does so, with the
// same writes.
#[tactic(auto, using(crate::proofs::Host::Steps::steps_alike))]
pub fn steps_alike()
    ensures { StepsAlike }
{}
