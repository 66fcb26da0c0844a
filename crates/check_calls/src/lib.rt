//! The calls in a text that break the rule on nonblocking text (9.5).
//!
//! The walk goes over the nodes of a typed program once and keeps the least call that breaks the rule. It takes no memory.
//! What stands last in an expression or a statement is gone through by a loop, so that chains of operators and of `elsif`
//! take no native stack.
#![tactic(auto)]

pub mod calls;
pub mod exprs;
pub mod stmts;
pub mod texts;
