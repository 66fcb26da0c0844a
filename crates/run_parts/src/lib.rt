//! What a walk over a program's nodes uses beside that walk: cells of objects, what calls and iterations hold, and what a
//! reason or a value leads to.
#![tactic(auto, unfolding(ada_meaning::specs::Stored::bind, ada_meaning::specs::Stored::ret, ada_meaning::specs::Stored::leaves, ada_meaning::specs::Stored::spent, ada_meaning::specs::Stored::handles))]

pub mod cells;
pub mod chains;
pub mod chunks;
pub mod constructs;
pub mod copies;
pub mod courses;
pub mod finding;
pub mod held;
pub mod leaving;
pub mod offsets;
pub mod passed;
pub mod paths;
pub mod pieces;
pub mod plans;
pub mod reducers;
pub mod scalars;
pub mod work;

pub use cells::{
    further, later, lay, one, placed, push_some, read_whole, size_at, turned, value_at, write_all,
    zeros,
};
pub use chains::{Chain, operands};
pub use chunks::{Chunking, each_chunk, most_of};
pub use constructs::{check_count, count_arms, either, find_arm, inside, is_spent, opened};
pub use copies::{BackCells, all_copied_back, back_cells, find_sub, first_cells};
pub use courses::{Course, bounds_hold};
pub use finding::{find_alternative, find_handler};
pub use held::Cells;
pub use leaving::caught;
pub use offsets::{component, moved};
pub use passed::{Back, Passed, Returned, Shape, push};
pub use paths::{ParameterIndex, Path, Paths};
pub use pieces::{with_field, with_image, with_line, with_text};
pub use plans::{SoundPlan, even_sizes, fold_sizes, loop_sizes};
pub use reducers::{Both, reduced_by};
pub use scalars::{InScalar, InScalars};
pub use work::Work;
