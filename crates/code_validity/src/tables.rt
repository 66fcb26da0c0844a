//! Whether the tables of sites, subprograms and unwind entries fit the code.

ghost use Rattle.std.specs.Prelude.{◌↔◌, IsTrue};
ghost use Rattle.stack_code.specs.Valid.{Each, HandlerFits, HasMain, IsEarlier, Lands, LeaseFits, SiteFits, SubFits};

use crate::bodies::outward;
use crate::ranges::fold_fits;
use stack_code::{Around, Code, CodeSite, CodeSub, Lease, Unwind};

fn enters_site(code: &Code, number: usize, entry: u32) -> bool
    ensures { IsTrue result ↔ Lands code.now (Around.Site number) 0 0 entry }
{
    match code.spots.get(entry as usize) {
        Some(spot) => match spot.body {
            Around::Site(body) => body as usize == number && spot.stack == 0 && spot.nest == 0,
            Around::Sub(_) => false,
        },
        None => false,
    }
}

fn enters_sub(code: &Code, number: usize, sub: CodeSub) -> bool
    ensures { IsTrue result ↔ SubFits code.now number sub }
{
    match code.spots.get(sub.entry as usize) {
        Some(spot) => match spot.body {
            Around::Sub(body) => {
                body as usize == number && spot.stack == sub.takes && spot.nest == 0
            }
            Around::Site(_) => false,
        },
        None => false,
    }
}

fn is_earlier(code: &Code, number: usize, around: Around) -> bool
    ensures { IsTrue result ↔ IsEarlier code.now number around }
{
    match around {
        Around::Sub(sub) => (sub as usize) < code.subs.len(),
        Around::Site(site) => (site as usize) < number,
    }
}

fn lease_fits(code: &Code, around: Around, frame: Option<u32>) -> bool
    ensures { IsTrue result ↔ LeaseFits code.now around frame }
{
    match frame {
        Some(steps) => outward(code, around, steps).is_some(),
        None => true,
    }
}

fn leases_fit(code: &Code, around: Around, leases: &[Lease]) -> bool
    ensures { IsTrue result ↔ Each leases.now (λ n lease. LeaseFits code.now around lease.frame) }
{
    for number in 0..leases.len() {
        if !lease_fits(code, around, leases[number].frame) {
            return false;
        }
    }
    true
}

#[tactic(auto, using(crate::proofs::Sites::site_whole))]
fn site_fits(code: &Code, number: usize, site: &CodeSite) -> bool
    ensures { IsTrue result ↔ SiteFits code.now number site.now }
{
    if !enters_site(code, number, site.entry) {
        return false;
    }
    if site.frame < 4 {
        return false;
    }
    if !is_earlier(code, number, site.around) {
        return false;
    }
    if !fold_fits(site.kind) {
        return false;
    }
    leases_fit(code, site.around, site.leases.as_slice())
}

/// Whether each construct's entry is where its threads begin, its frame has the four cells of a thread, it stands in an
/// earlier body with its leases, and its operator has a base range of code.
pub(crate) fn sites_fit(code: &Code) -> bool
    ensures { IsTrue result ↔ Each code.now.sites (SiteFits code.now) }
{
    let sites = code.sites.as_slice();
    for number in 0..sites.len() {
        if !site_fits(code, number, &sites[number]) {
            return false;
        }
    }
    true
}

/// Whether each subprogram's entry is where it begins.
pub(crate) fn subs_fit(code: &Code) -> bool
    ensures { IsTrue result ↔ Each code.now.subs (SubFits code.now) }
{
    let subs = code.subs.as_slice();
    for number in 0..subs.len() {
        if !enters_sub(code, number, subs[number]) {
            return false;
        }
    }
    true
}

fn handler_fits(code: &Code, entry: Unwind) -> bool
    ensures { IsTrue result ↔ HandlerFits code.now entry }
{
    match code.spots.get(entry.handler as usize) {
        Some(handler) => {
            u64::from(handler.stack) == u64::from(entry.depth) + 1 && handler.nest == entry.nest
        }
        None => false,
    }
}

/// Whether each handler begins with one operand more than its entry leaves, and as many constructs begun.
pub(crate) fn handlers_fit(code: &Code) -> bool
    ensures { IsTrue result ↔ Each code.now.unwind (λ k u. HandlerFits code.now u) }
{
    let entries = code.unwind.as_slice();
    for number in 0..entries.len() {
        if !handler_fits(code, entries[number]) {
            return false;
        }
    }
    true
}

/// Whether the first subprogram is the main one, which takes no operand.
pub(crate) fn has_main(code: &Code) -> bool
    ensures { IsTrue result ↔ HasMain code.now }
{
    match code.subs.get(0) {
        Some(main) => main.takes == 0,
        None => false,
    }
}
