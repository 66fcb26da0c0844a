//! The leases of a program's parallel constructs.

ghost use Rattle.std.specs.Prelude.{◌≡◌, ◌+◌, ◌∷◌, ◌++◌, [], None, map, IfOk, OnOk};
ghost use Rattle.ada_meaning.specs.Shapes.{object_shape};
ghost use Rattle.behaviours.specs.Paths.{VariableOf};
ghost use Rattle.typed_tree.specs.Programs.{program};
ghost use Rattle.check_inference.specs.Exact.{plain};
ghost use Rattle.ada_lower.specs.Leases as spec;
ghost use Rattle.ada_lower.specs.Places as places;
ghost use Rattle.lower_leases.specs.Grants.{granted_by};
ghost use Rattle.lower_leases.specs.Paths.{part_shape};
ghost use Rattle.lower_leases.specs.Lent as lent;

use crate::finding::{homes_of, standings_of};
use crate::paths::{Path, Reached, Through, Walk, way};
use crate::shapes::{Form, Part, opened, sum};
use ada_base::Items;
use ada_lower::types::{Home, Standing};
use check_clashes::granted::{Grant, Grants};
use stack_code::Lease;
use std::alloc::{AllocError, Global};
use typed_tree::Typed;

/// The program, where its variables lie, and where a parallel construct stands.
#[derive(Clone, Copy)]
pub struct Seen<'a> {
    pub typed: &'a Typed,
    pub homes: &'a [Home],
    pub standing: Standing,
}

/// The program, where its variables lie, and where all parallel constructs stand.
#[derive(Clone, Copy)]
pub struct Found<'a> {
    pub typed: &'a Typed,
    pub homes: &'a [Home],
    pub standings: &'a [Standing],
}

/// Where the variable of an object's number lies.
fn home_in(object: u32, homes: &[Home]) -> Option<Home>
    ensures { result ≡ places.home_in object homes.now }
{
    let mut rest = homes;
    while let Some((first, others)) = rest.split_first() {
        if object == first.object {
            return Some(*first);
        }
        rest = others;
    }
    None
}

/// Where the construct of a site's number stands.
fn standing_in(site: u32, standings: &[Standing]) -> Option<Standing>
    ensures { result ≡ places.standing_in site standings.now }
{
    let mut rest = standings;
    while let Some((first, others)) = rest.split_first() {
        if site == first.site {
            return Some(*first);
        }
        rest = others;
    }
    None
}

/// The frame of a variable as a text sees it, within the threads of so many constructs.
#[tactic(auto, using(crate::proofs::Lent::outward))]
fn frame_from(depth: u32, home: Home) -> Option<u32>
    ensures { result ≡ spec.frame_of (places.level_from depth home) }
{
    if home.main {
        None
    } else if home.depth < depth {
        Some(depth - home.depth)
    } else {
        Some(0)
    }
}

/// An object, as a part.
fn whole(typed: &Typed, object: u32) -> Part
    ensures { part_shape typed.now result ≡ object_shape (program typed.now) object }
{
    match typed.objects.get(object as usize) {
        None => Part {
            levels: 0,
            form: Form::Empty,
        },
        Some(found) => opened(typed, typed.subtypes.len(), found.subtype),
    }
}

/// The way to what is granted.
fn path_to(seen: Seen<'_>, grant: &Grant, alloc: Global) -> Result<Option<Path>, AllocError>
    ensures { IfOk result (λ found. found ≡ lent.path_of (program seen.entry.typed.now) seen.entry.standing.ranges grant.now) }
{
    let through = Through {
        typed: seen.typed,
        ranges: seen.standing.ranges,
    };
    let at = Reached {
        part: whole(seen.typed, grant.path.object),
        cell: 0,
        items: None,
    };
    let mut out = Walk {
        steps: Items::new(alloc),
        whole: true,
    };
    let end = way(through, at, grant.path.selectors.as_slice(), &mut out);
    if !out.whole {
        return Err(AllocError);
    }
    match end {
        None => Ok(None),
        Some(end) => Ok(Some(Path {
            base: end.base,
            steps: out.steps,
            run: end.run,
        })),
    }
}

/// The lease of a path of a variable.
fn lease(depth: u32, home: Home, arm: u64, path: Path) -> Result<Lease, AllocError>
    ensures { IfOk result (λ found. found ≡ lent.lease_by depth home arm path) }
{
    let Path { base, steps, run } = path;
    let arm = match u32::try_from(arm) {
        Ok(number) => number,
        Err(_) => return Err(AllocError),
    };
    Ok(Lease {
        arm,
        frame: frame_from(depth, home),
        base: sum(home.cell, base)?,
        steps,
        run,
    })
}

/// The lease of a grant, where its variable is found and its path leads to a part of it.
#[tactic(auto, using(crate::proofs::Lent::no_home, crate::proofs::Lent::no_path, crate::proofs::Lent::is_lent))]
fn with_lease(
    seen: Seen<'_>,
    grant: &Grant,
    out: &mut Items<Lease>,
    alloc: Global,
) -> Result<(), AllocError>
    ensures { OnOk result (out.new ≡ out.old ++ lent.lent_by (program seen.entry.typed.now) seen.entry.standing seen.entry.homes.now grant.now) }
{
    match home_in(grant.path.object, seen.homes) {
        None => Ok(()),
        Some(home) => match path_to(seen, grant, alloc)? {
            None => Ok(()),
            Some(path) => out.push(lease(seen.standing.depth, home, grant.arm, path)?),
        },
    }
}

/// The same of a grant, if that is at the construct's site.
#[tactic(auto, using(crate::proofs::Lent::none_more))]
fn with_grant(
    seen: Seen<'_>,
    site: u32,
    grant: &Grant,
    out: &mut Items<Lease>,
    alloc: Global,
) -> Result<(), AllocError>
    ensures { OnOk result (out.new ≡ out.old ++ lent.lent_at (program seen.entry.typed.now) seen.entry.standing seen.entry.homes.now site grant.now) }
{
    if site == grant.site {
        with_lease(seen, grant, out, alloc)
    } else {
        Ok(())
    }
}

/// The leases of a construct that stands somewhere.
fn granted(
    seen: Seen<'_>,
    site: u32,
    grants: &[Grant],
    alloc: Global,
) -> Result<Items<Lease>, AllocError>
    ensures { IfOk result (λ all. all ≡ spec.all_leased (program seen.entry.typed.now) (places.names_from (Some seen.entry.standing) seen.entry.homes.now) seen.entry.standing.ranges (granted_by grants.now site)) }
{
    let mut all = Items::new(alloc);
    let mut rest = grants;
    while let Some((grant, others)) = rest.split_first() {
        with_grant(seen, site, grant, &mut all, alloc)?;
        rest = others;
    }
    Ok(all)
}

/// The leases of the construct of a site's number.
#[tactic(auto, using(crate::proofs::Lent::stands_nowhere))]
fn site_leases(
    found: Found<'_>,
    site: u32,
    grants: &[Grant],
    alloc: Global,
) -> Result<Items<Lease>, AllocError>
    ensures { IfOk result (λ all. all ≡ lent.site_leases (program found.entry.typed.now) found.entry.homes.now found.entry.standings.now grants.now site) }
{
    match standing_in(site, found.standings) {
        None => Ok(Items::new(alloc)),
        Some(standing) => {
            let seen = Seen {
                typed: found.typed,
                homes: found.homes,
                standing,
            };
            granted(seen, site, grants, alloc)
        }
    }
}

/// The leases of all constructs.
fn all_leases(
    found: Found<'_>,
    grants: &[Grant],
    alloc: Global,
) -> Result<Items<Items<Lease>>, AllocError>
    ensures { IfOk result (λ all. all ≡ places.leases_from (lent.site_leases (program found.entry.typed.now) found.entry.homes.now found.entry.standings.now grants.now) 0 (program found.entry.typed.now).sites) }
{
    let mut all = Items::new(alloc);
    let mut rest = found.typed.sites.as_slice();
    let mut number: u32 = 0;
    while let Some((_, others)) = rest.split_first() {
        let list = site_leases(found, number, grants, alloc)?;
        all.push(list)?;
        number = sum(number, 1)?;
        rest = others;
    }
    Ok(all)
}

/// The leases of a program's parallel constructs, of which `grants` says what their threads may write: of each construct, in the
/// order of their numbers, the cells of what is granted, from the frame that the construct sees. An Err is want of memory, also
/// where 32 bits don't hold the number of a cell, of cells or of an arm.
pub fn leases_of(
    typed: &Typed,
    grants: &Grants,
    alloc: Global,
) -> Result<Items<Items<Lease>>, AllocError>
    ensures { IfOk result (λ all. all ≡ places.all_leases (program typed.now) (granted_by grants.now.owned)) }
{
    let homes = homes_of(typed, alloc)?;
    let standings = standings_of(typed, alloc)?;
    let found = Found {
        typed,
        homes: homes.as_slice(),
        standings: standings.as_slice(),
    };
    all_leases(found, grants.owned.as_slice(), alloc)
}
