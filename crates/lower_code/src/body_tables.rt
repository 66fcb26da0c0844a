//! The tables of bodies: of subprograms, and of the threads of constructs.

ghost use Rattle.std.specs.Prelude.{◌≡◌, ◌+◌, ◌++◌, [], ◌&&◌, drop, get_or, is_ok, replicate, IfOk, OnOk};
ghost use Rattle.std.specs.Vec.Iter.{into_iter_items};
ghost use Rattle.lower_emission.specs.Programs as programs;
ghost use Rattle.lower_values.specs.Words.{is_narrow};
ghost use Rattle.lower_code.specs.BodyTables as spec;
ghost use Rattle.lower_code.specs.BodyTables.{each};

use ada_base::Items;
use lower_emission::types::{Fork, Need, Placed};
use stack_code::{Around, CodeSite, CodeSub, Instr, Lease, SiteKind};
use std::alloc::{AllocError, Global};
use std::vec::IntoIter;

/// A construct: where it is begun, and what its threads need.
#[derive(Clone, Copy)]
pub struct Begun {
    pub fork: Fork,
    pub need: Need,
}

/// A subprogram: where its code begins, what it needs, and whether it gives a value.
#[derive(Clone, Copy)]
pub struct Start {
    pub entry: u32,
    pub need: Need,
    pub gives: bool,
}

fn raised(need: Need, placed: Placed) -> Need
    ensures { result ≡ programs.raised need placed }
{
    Need {
        cells: need.cells.max(placed.cells),
        height: need.height.max(placed.height),
    }
}

/// A subprogram needs what an instruction needs.
fn raise_sub(subs: &mut Items<Start>, placed: Placed)
    ensures { subs.new ≡ each (λ k s. spec.sub_with placed k s) 0 subs.old }
{
    if let Around::Sub(number) = placed.body {
        if let Some(sub) = subs.get(number as usize) {
            let grown = Start {
                entry: sub.entry,
                need: raised(sub.need, placed),
                gives: sub.gives,
            };
            subs.set(number as usize, grown);
        }
    }
}

/// Subprograms need what their instructions need.
fn raise_subs(code: &[Placed], subs: &mut Items<Start>)
    ensures { subs.new ≡ each (λ k s. spec.sub_after code.now k s) 0 subs.old }
{
    for placed in code {
        raise_sub(subs, *placed);
    }
}

fn sub_by(start: Start) -> Result<CodeSub, AllocError>
    ensures is { IfOk result (λ sub. sub ≡ programs.sub_by start.entry start.need start.gives) }
    ensures fits { is_ok result ≡ is_narrow (start.need.cells + 1) }
{
    Ok(CodeSub {
        entry: start.entry,
        frame: start.need.cells.checked_add(1).ok_or(AllocError)?,
        stack: start.need.height,
        takes: 0,
        gives: start.gives,
    })
}

fn subs_by(starts: &[Start], alloc: Global) -> Result<Items<CodeSub>, AllocError>
    ensures { IfOk result (λ all. all ≡ spec.subs_by starts.now) }
{
    let mut all = Items::new(alloc);
    for start in starts {
        all.push(sub_by(*start)?)?;
    }
    Ok(all)
}

/// The table of subprograms that begin there. An Err is want of memory, also where a frame has more than 2^32 - 1 cells.
pub fn subs_of(
    code: &[Placed],
    starts: Items<Start>,
    alloc: Global,
) -> Result<Items<CodeSub>, AllocError>
    ensures { IfOk result (λ all. all ≡ spec.sub_table code.now starts) }
{
    let mut subs = starts;
    raise_subs(code, &mut subs);
    subs_by(subs.as_slice(), alloc)
}

/// A construct's threads need what an instruction needs.
fn raise_site(sites: &mut Items<Begun>, placed: Placed)
    ensures { sites.new ≡ each (λ k b. spec.needing placed k b) 0 sites.old }
{
    if let Around::Site(number) = placed.body {
        if let Some(site) = sites.get(number as usize) {
            let grown = Begun {
                fork: site.fork,
                need: raised(site.need, placed),
            };
            sites.set(number as usize, grown);
        }
    }
}

/// A construct is begun where an instruction forks.
fn begin_site(sites: &mut Items<Begun>, at: u32, placed: Placed)
    ensures { sites.new ≡ each (λ k b. spec.forking at placed k b) 0 sites.old }
{
    if let Instr::Fork(number) = placed.instr {
        if let Some(site) = sites.get(number as usize) {
            let begun = Begun {
                fork: Fork {
                    place: at,
                    around: placed.body,
                    kind: placed.kind,
                },
                need: site.need,
            };
            sites.set(number as usize, begun);
        }
    }
}

/// Constructs by all instructions.
fn begin_sites(code: &[Placed], sites: &mut Items<Begun>) -> Result<(), AllocError>
    ensures { OnOk result (sites.new ≡ each (λ k b. spec.site_after 0 code.now k b) 0 sites.old) }
{
    let mut at: u32 = 0;
    while let Some(placed) = code.get(at as usize) {
        raise_site(sites, *placed);
        begin_site(sites, at, *placed);
        at = at.checked_add(1).ok_or(AllocError)?;
    }
    Ok(())
}

/// So many constructs of which nothing is known.
fn fresh_sites(count: usize, alloc: Global) -> Result<Items<Begun>, AllocError>
    ensures { IfOk result (λ all. all ≡ replicate count spec.fresh) }
{
    let fresh = Begun {
        fork: Fork {
            place: 0,
            around: Around::Sub(0),
            kind: SiteKind::Loop,
        },
        need: Need {
            cells: 4,
            height: 0,
        },
    };
    Ok(Items::from_vec(vec![in alloc; fresh; count]?))
}

fn site_by(begun: Begun, leases: Items<Lease>) -> Result<CodeSite, AllocError>
    ensures is { IfOk result (λ site. site ≡ programs.site_by begun.fork begun.need leases) }
    ensures fits { is_ok result ≡ (is_narrow (begun.fork.place + 2) && is_narrow (begun.need.cells + 1)) }
{
    Ok(CodeSite {
        entry: begun.fork.place.checked_add(2).ok_or(AllocError)?,
        frame: begun.need.cells.checked_add(1).ok_or(AllocError)?,
        stack: begun.need.height,
        around: begun.fork.around,
        kind: begun.fork.kind,
        leases,
    })
}

/// The leases of the next construct.
fn next_lease(rest: &mut IntoIter<Items<Lease>>, alloc: Global) -> Items<Lease>
    ensures { (result ≡ get_or (into_iter_items rest.old) 0 []) × (into_iter_items rest.new ≡ drop 1 (into_iter_items rest.old)) }
{
    match rest.next() {
        Some(list) => list,
        None => Items::new(alloc),
    }
}

/// Constructs with their leases.
fn leased(
    begun: &[Begun],
    leases: Items<Items<Lease>>,
    alloc: Global,
) -> Result<Items<CodeSite>, AllocError>
    ensures { IfOk result (λ all. all ≡ spec.sites_from leases 0 begun.now) }
{
    let mut all = Items::new(alloc);
    let mut rest = leases.into_vec().into_iter();
    for site in begun {
        let list = next_lease(&mut rest, alloc);
        all.push(site_by(*site, list)?)?;
    }
    Ok(all)
}

/// The table of so many constructs, with the leases of each. An Err is want of memory, also where there are more than
/// 2^32 - 1 instructions or cells of a frame.
pub fn sites_of(
    code: &[Placed],
    leases: Items<Items<Lease>>,
    count: usize,
    alloc: Global,
) -> Result<Items<CodeSite>, AllocError>
    ensures { IfOk result (λ all. all ≡ spec.site_table code.now leases count) }
{
    let mut begun = fresh_sites(count, alloc)?;
    begin_sites(code, &mut begun)?;
    leased(begun.as_slice(), leases, alloc)
}
