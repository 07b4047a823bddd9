// keyberon's key_code.rs: the codes, and the report that is made of them.
#![tactic(auto)]

pub mod key_code;
pub mod report;

pub use key_code::KeyCode;
pub use report::KbHidReport;
