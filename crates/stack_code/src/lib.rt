//! Code of a stack machine: its instructions and tables, what the machine does with them, and the laws of that.
#![tactic(auto)]

pub mod code;
pub mod flow;
pub mod instr;
pub mod laws;
pub mod operators;
pub mod path;
pub mod reasons;
pub mod spots;

pub use code::{
    Around, Code, CodeSite, CodeSub, Lease, Reducer, SiteKind, Spot, Step, Unwind, Words,
};
pub use flow::Flow;
pub use instr::Instr;
pub use laws::{cut_law, frame_law, look_law, standing_law, top_law};
pub use operators::{Digits, Relation};
pub use path::{Asked, Gave, Io, Leave};
pub use reasons::reason_number;
pub use spots::{leads, names_holder};
