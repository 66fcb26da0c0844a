use ada_base::{Base, Items};
use check_clashes::effects::Selector;
use check_clashes::granted::Grants;
use check_conflicts::accept::accept;
use check_conflicts::faults::ConflictFault;
use check_inference::infer::infer;
use std::alloc::{AllocError, Global};
use std::test::Fail;
use typed_parts::Parts;
use typed_tree::{Check, Class, Root, Scalar, Typed};

const RANGE: Scalar = Scalar {
    class: Class::Integer(Base::Narrow),
    low: -2_147_483_648,
    high: 2_147_483_647,
};

/// A number as an expression.
fn number(parts: &mut Parts, value: i64) -> Result<(), AllocError> {
    parts.nothing()?;
    parts.static_value(0, value, true)
}

/// A list of the latest part.
fn alone(parts: &mut Parts) -> Result<(), AllocError> {
    parts.nothing()?;
    parts.before()
}

/// `A (I) := 1;` as a list of statements, or `A (N) := 1;` of a number, where A begins at a token. A is object 0, with
/// indexes from 1 to 3; I is parameter 0.
fn assignment(parts: &mut Parts, at: u32, index: Option<i64>) -> Result<(), AllocError> {
    match index {
        None => parts.parameter(0, 0)?,
        Some(value) => number(parts, value)?,
    }
    parts.index(0, 1, 3, 1)?;
    alone(parts)?;
    number(parts, 1)?;
    parts.number(Check {
        at: 0,
        scalar: RANGE,
    })?;
    parts.assign(at, Root::Object(0))?;
    alone(parts)
}

/// A parallel construct in the main procedure.
#[derive(Clone, Copy)]
enum Construct {
    /// `parallel for I in 1 .. 3 loop A (..) := 1; end loop;` of this site, with A at token 9
    Loop(u32, Option<i64>),
    /// `parallel do A (..) := 1; and A (..) := 1; end do;` of this site, with A at tokens 5 and 13
    Block(u32, i64, i64),
}

fn join(parts: &mut Parts, construct: Construct) -> Result<(), AllocError> {
    parts.nothing()?;
    match construct {
        Construct::Loop(site, index) => {
            number(parts, 1)?;
            number(parts, 3)?;
            parts.nothing()?;
            parts.nothing()?;
            parts.range(0, false)?;
            assignment(parts, 9, index)?;
            parts.parallel_for(0, site)
        }
        Construct::Block(site, first, second) => {
            assignment(parts, 5, Some(first))?;
            assignment(parts, 13, Some(second))?;
            alone(parts)?;
            parts.before()?;
            parts.parallel(site)
        }
    }
}

/// A program of one construct, which declares A.
fn program(alloc: Global, construct: Construct, strict: bool) -> Result<Typed, AllocError> {
    let mut parts = Parts::new(alloc)?;
    parts.declare_default(0)?;
    alone(&mut parts)?;
    join(&mut parts, construct)?;
    alone(&mut parts)?;
    parts.nothing()?;
    parts.body()?;
    let mut done = parts.finish();
    let body = done.take().unwrap_or(0);
    Ok(Typed {
        nodes: done.nodes,
        subtypes: Items::new(alloc),
        objects: Items::new(alloc),
        subs: Items::new(alloc),
        sites: Items::new(alloc),
        exceptions: Items::new(alloc),
        body,
        nonblocking: false,
        strict,
    })
}

fn selected(alloc: Global, selector: Selector) -> Result<String, AllocError> {
    match selector {
        Selector::Field(field) => format!(in alloc; " field {field}"),
        Selector::Fixed(index) => format!(in alloc; " index {index}"),
        Selector::Loop(distance) => format!(in alloc; " loop {distance}"),
        Selector::Chunk(distance) => format!(in alloc; " chunk {distance}"),
        Selector::Any => format!(in alloc; " any"),
    }
}

/// Site, arm and path of each grant.
fn listed(alloc: Global, grants: &Grants) -> Result<String, AllocError> {
    let mut text = String::new(alloc);
    for grant in grants.owned.as_slice() {
        let site = grant.site;
        let arm = grant.arm;
        let object = grant.path.object;
        let head = format!(in alloc; "{site}.{arm}: {object}")?;
        text.push_str(head.as_str())?;
        for selector in grant.path.selectors.as_slice() {
            let tail = selected(alloc, *selector)?;
            text.push_str(tail.as_str())?;
        }
        text.push_str("; ")?;
    }
    Ok(text)
}

/// The grants, or the tokens of the least breach.
fn told(alloc: Global, construct: Construct, strict: bool) -> Result<String, AllocError> {
    let typed = program(alloc, construct, strict)?;
    let effects = infer(&typed, alloc)?;
    match accept(&typed, &effects, alloc) {
        Ok(grants) => listed(alloc, &grants),
        Err(ConflictFault::GlobalTouched { at, object }) => {
            format!(in alloc; "{at} touches {object}")
        }
        Err(ConflictFault::Clash { at, other }) => format!(in alloc; "{at} beside {other}"),
        Err(ConflictFault::OutOfMemory) => Err(AllocError),
    }
}

/// Under the disjoint rule alone, and under both rules.
#[test]
fn grants_or_the_least_breach_are_told(rt: HostRuntime) -> Result<(), Fail> {
    let alloc = rt.alloc();
    for (construct, strict, answer) in [
        (Construct::Loop(7, None), false, "7.0: 0 loop 0; "),
        (Construct::Loop(7, None), true, "7.0: 0 loop 0; "),
        (Construct::Loop(7, Some(1)), false, "9 beside 9"),
        (Construct::Loop(7, Some(1)), true, "9 touches 0"),
        (
            Construct::Block(3, 1, 2),
            false,
            "3.0: 0 index 1; 3.1: 0 index 2; ",
        ),
        (Construct::Block(3, 1, 2), true, "5 touches 0"),
        (Construct::Block(3, 2, 2), false, "5 beside 13"),
    ] {
        let words = told(alloc, construct, strict)?;
        assert_eq!(rt; words.as_str(), answer);
    }
    Ok(())
}
