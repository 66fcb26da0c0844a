//! One raw block of cells, parts of which are owned apart from each other: cut off, joined again, and given back whole.
//! Which cells a part owns exists in proofs alone, so nothing is searched or copied.
#![tactic(auto)]

mod cells;
mod cross;
mod part;
mod region;

pub use cells::{Base, Cells, Deed};
pub use cross::{both_ways, each};
pub use part::Part;
pub use region::Region;
