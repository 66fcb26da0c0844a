//! The parallel constructs that are found.

ghost use Rattle.std.specs.Prelude.{◌≡◌, ◌∷◌, ◌++◌, [], ◌+◌};
ghost use Rattle.ada_lower.specs.Standings.{with_standing};
ghost use Rattle.lower_leases.specs.Words.{Finds, Learns};

use ada_base::Items;
use ada_lower::types::Standing;

/// The constructs that were found, if all of them had room.
#[derive(Drop)]
pub struct Finding {
    pub found: Items<Standing>,
    pub whole: bool,
}

/// A construct of that number stands here.
pub fn stands(site: u32, depth: u32, ranges: bool, out: &mut Finding)
    ensures { Finds (with_standing depth site ranges out.old.found) out.old out.new }
{
    let standing = Standing {
        site,
        depth,
        ranges,
    };
    if out.found.push(standing).is_err() {
        out.whole = false;
    }
}

/// Within one more construct, if there is room for its number.
pub fn deeper(depth: u32, out: &mut Finding) -> u32
    ensures { Learns (depth + 1) out.old result out.new }
{
    match depth.checked_add(1) {
        Some(found) => found,
        None => {
            out.whole = false;
            0
        }
    }
}
