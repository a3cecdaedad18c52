// The lines that replay answers: what each asks for, and what the bytes that are lent to it are filled with.
#![tactic(auto)]

mod decoding;
mod fields;
mod halfwords;
mod indexing;
mod pattern;
mod placing;
mod translation;

pub use decoding::read_decoding;
pub use indexing::{Indexing, KeyedBlock, read_indexing};
pub use pattern::{fill, is_untouched};
pub use placing::{Placing, read_placing};
pub use translation::{Translation, read_translation};

// The most bytes that are lent to a request.
const LENT: u64 = 65536;
