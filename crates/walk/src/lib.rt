// The loop of the Rust's `compile_native_block`: the fetch of an instruction, the words of a run, and a block's last instructions.
#![tactic(auto)]

pub mod close;
pub mod fetch;
mod run;

pub use run::{Walked, emit_words};
