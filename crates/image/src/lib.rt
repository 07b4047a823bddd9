// keyberon's action.rs: the eight actions, as records of a table image, with the image's check, its lookups and the
// table in use. Document 01, "The table image".
// A `usize` of 32 bits holds every sum and product here: a word has 16 bits, an image whose header keeps its rules is at most
// 6,160 bytes long, and the places that a lookup computes, which knows nothing of its image, are u64.
// Assumes nothing.
#![tactic(auto)]

pub mod areas;
mod body;
mod children;
mod header;
pub mod record;
mod records;
pub mod rules;
pub mod words;

pub use areas::{Source, in_use, refusal_in_use, source_of};
pub use header::counts_good;
pub use record::{Action, action_at, cell_at, entry_at};
pub use rules::check;
pub use words::{Shape, word_or_zero};
