// keyberon's layout.rs: key events and ticks go in, key codes come out, through layers and hold-taps. Document 01, Layout.
// Assumes nothing.
#![tactic(auto)]

mod accepted;
pub mod action;
pub mod active;
pub mod answer;
pub mod effect;
pub mod layout;
mod line;
pub mod notes;
mod progress;
pub mod queue;
pub mod state;
pub mod steps;

pub use active::{Active, State, WaitingState};
pub use answer::{Answer, Answered};
pub use layout::Layout;
pub use notes::{Decision, Notes, Way};
pub use queue::{Queue, Stacked};
