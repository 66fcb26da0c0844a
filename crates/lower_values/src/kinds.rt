//! What kinds of parallel constructs there are for the machine (5.5, 4.5.10).

ghost use Rattle.std.specs.Prelude.{◌≡◌};
ghost use Rattle.typed_tree.specs.Decoded.{chunk_at};
ghost use Rattle.lower_emission.specs.Emission as spec;

use run_values::base_of;
use stack_code::SiteKind;
use typed_tree::{Chunk, Reducer, Typed};

/// The kind of a parallel loop with a chunk specification.
pub fn loop_kind(typed: &Typed, chunk: u32) -> SiteKind
    ensures { result ≡ spec.loop_kind (chunk_at typed.now.nodes chunk) }
{
    match typed.nodes.chunk(chunk) {
        Some(Chunk::Each { .. }) => SiteKind::ChunkLoop,
        Some(Chunk::Count { .. }) | None => SiteKind::Loop,
    }
}

fn folded_by(by: Reducer) -> Option<stack_code::Reducer>
    ensures { result ≡ spec.folded_by by }
{
    match by {
        Reducer::Operator { op, class, .. } => Some(stack_code::Reducer {
            op,
            base: base_of(class),
        }),
        Reducer::Function { .. } => None,
    }
}

/// The kind of a parallel reduction with a chunk specification.
pub fn reduction_kind(typed: &Typed, by: Reducer, chunk: u32) -> SiteKind
    ensures { result ≡ spec.reduction_kind by (chunk_at typed.now.nodes chunk) }
{
    let folded = folded_by(by);
    match typed.nodes.chunk(chunk) {
        Some(Chunk::Each { .. }) => SiteKind::ChunkReduction(folded),
        Some(Chunk::Count { .. }) | None => SiteKind::Reduction(folded),
    }
}
