// What the programs that answer lines share: lines gathered from what was read, and an answer's text, by value. Reading and
// writing are console's. Assumes nothing.
#![tactic(auto)]

mod input;
mod reply;
mod text;

pub use input::{Reading, front, gather};
pub use reply::{refused, unread};
pub use text::Text;
