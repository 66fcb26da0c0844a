//! Subprograms: what is known of each, and the numbers of its parts.

ghost use Rattle.std.specs.Prelude.{◌≡◌, IfOk, map};
ghost use Rattle.typed_tree.specs.Programs.{sub_of};
ghost use Rattle.name_tables.specs.Heads.{subs_of};
ghost use Rattle.typed_parts.specs.Stack.{parts_in};

use ada_base::Items;
use std::alloc::{AllocError, Global};
use typed_parts::Finished;
use typed_tree::{Scalar, Sub};

/// What is known of a subprogram beside its parts, which are the list of its formal parameters and its body: the subtype
/// of a function's result, and whether it is nonblocking.
#[derive(Clone, Copy)]
pub struct Head {
    pub result: Option<Scalar>,
    pub nonblocking: bool,
}

/// The subprograms of the latest parts, in the order of their numbers.
#[tactic(auto, unfolding(crate::specs::Heads::subs_of), using(crate::proofs::Reversed::reverse_one, crate::proofs::Reversed::map_reverse_one))]
pub fn subs_taken(
    alloc: Global,
    finished: &mut Finished,
    heads: Items<Head>,
) -> Result<Items<Sub>, AllocError>
    ensures { IfOk result (λ subs. (map (sub_of finished.new.nodes) subs ≡ subs_of heads (parts_in finished.old.nodes finished.old.roots)) × (finished.new.nodes ≡ finished.old.nodes)) }
{
    let mut left = heads;
    let mut backwards = Items::new(alloc);
    'each: while let Some(head) = left.pop() {
        let Some(body) = finished.take() else {
            return Err(AllocError);
        };
        let Some(formals) = finished.take() else {
            return Err(AllocError);
        };
        backwards.push(Sub {
            formals,
            result: head.result,
            nonblocking: head.nonblocking,
            body,
        })?;
    }
    let mut all = backwards.into_vec();
    all.reverse();
    Ok(Items::from_vec(all))
}
