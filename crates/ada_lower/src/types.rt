//! Where variables and parallel constructs are.

/// Where a variable lies: in the main frame, or in that of a body around which so many constructs' threads stand; its first
/// cell there, and how many it has.
#[derive(Clone, Copy)]
pub struct Home {
    pub object: u32,
    pub main: bool,
    pub depth: u32,
    pub cell: u32,
    pub cells: u32,
}

/// Where a parallel construct stands: within the threads of so many others, and whether it goes through a range.
#[derive(Clone, Copy)]
pub struct Standing {
    pub site: u32,
    pub depth: u32,
    pub ranges: bool,
}
