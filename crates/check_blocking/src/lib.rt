//! The rule on nonblocking text (9.5): all text of a parallel construct and of a nonblocking subprogram calls nothing
//! that may block.
//!
//! `check` goes through the bodies of a typed program once, by the walk of check_calls. It takes no memory.
#![tactic(auto)]

pub mod calls;
pub mod rule;

pub use calls::Blocked;
pub use rule::check;
