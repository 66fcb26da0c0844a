use ada_base::{Base, Items, Op};
use check_blocking::{Blocked, check};
use std::alloc::{AllocError, Global};
use std::test::Fail;
use typed_parts::Parts;
use typed_tree::{Class, Scalar, Sub, Typed};

const INTEGER: Class = Class::Integer(Base::Narrow);

const RANGE: Scalar = Scalar {
    class: INTEGER,
    low: -2_147_483_648,
    high: 2_147_483_647,
};

const LONG: u32 = 100_000;

/// A call of `Parts`, or several, with what differs between programs. A call is one of subprogram 0.
enum Step {
    Nothing,
    Static,
    Call(u32, u32),
    Function(u32),
    Sum,
    Span,
    Reduced(Option<u32>),
    Plus,
    Put(u32),
    Before,
    If,
    Elsif,
}

/// A number as an expression.
fn number(parts: &mut Parts) -> Result<(), AllocError> {
    parts.nothing()?;
    parts.static_value(0, 1, true)
}

/// `for I in 1 .. 1`
fn span(parts: &mut Parts) -> Result<(), AllocError> {
    number(parts)?;
    number(parts)?;
    parts.nothing()?;
    parts.nothing()?;
    parts.range(0, false)
}

/// Many additions behind the latest part.
fn add(parts: &mut Parts) -> Result<(), AllocError> {
    for _ in 0..LONG {
        number(parts)?;
        parts.binary(0, Op::Add, INTEGER)?;
    }
    Ok(())
}

/// Many `elsif` before the latest part, which is a list of statements.
fn choose(parts: &mut Parts) -> Result<(), AllocError> {
    for _ in 0..LONG {
        number(parts)?;
        parts.swap()?;
        parts.nothing()?;
        parts.swap()?;
        parts.if_then()?;
        parts.nothing()?;
        parts.before()?;
    }
    Ok(())
}

/// A reducer that is subprogram 0.
fn function(parts: &mut Parts, at: u32) -> Result<(), AllocError> {
    parts.scalar(RANGE)?;
    parts.scalar(RANGE)?;
    parts.fold_function(at, 0)
}

fn join(parts: &mut Parts, step: &Step) -> Result<(), AllocError> {
    match step {
        Step::Nothing => parts.nothing(),
        Step::Static => number(parts),
        Step::Call(at, callee) => {
            parts.nothing()?;
            parts.call(*at, *callee, 0)
        }
        Step::Function(at) => function(parts, *at),
        Step::Sum => parts.fold_operator(0, Op::Add, INTEGER),
        Step::Span => span(parts),
        Step::Reduced(site) => parts.reduction(0, 0, *site),
        Step::Plus => add(parts),
        Step::Put(at) => {
            parts.nothing()?;
            parts.put_pieces(*at, *at, true)
        }
        Step::Before => parts.before(),
        Step::If => parts.if_then(),
        Step::Elsif => choose(parts),
    }
}

/// A list of the statement that is joined by these steps; of none, if there are no steps.
fn join_list(parts: &mut Parts, steps: &[Step]) -> Result<(), AllocError> {
    for step in steps {
        join(parts, step)?;
    }
    parts.nothing()?;
    if steps.is_empty() {
        Ok(())
    } else {
        parts.before()
    }
}

/// A body of such a list, which stands in a parallel loop where that is asked.
fn join_body(parts: &mut Parts, steps: &[Step], parallel: bool) -> Result<(), AllocError> {
    parts.nothing()?;
    if parallel {
        parts.nothing()?;
        span(parts)?;
        join_list(parts, steps)?;
        parts.parallel_for(0, 0)?;
        parts.nothing()?;
        parts.before()?;
    } else {
        join_list(parts, steps)?;
    }
    parts.nothing()?;
    parts.body()
}

/// A program with one subprogram.
#[derive(Clone, Copy)]
struct Text<'a> {
    sub: &'a [Step],
    sub_nonblocking: bool,
    main: &'a [Step],
    main_nonblocking: bool,
    parallel: bool,
}

fn program(alloc: Global, text: &Text<'_>) -> Result<Typed, AllocError> {
    let mut parts = Parts::new(alloc)?;
    join_body(&mut parts, text.sub, false)?;
    join_body(&mut parts, text.main, text.parallel)?;
    let mut done = parts.finish();
    let body = done.take().unwrap_or(0);
    let sub = Sub {
        formals: 0,
        result: None,
        nonblocking: text.sub_nonblocking,
        body: done.take().unwrap_or(0),
    };
    Ok(Typed {
        nodes: done.nodes,
        subtypes: Items::new(alloc),
        objects: Items::new(alloc),
        subs: Items::from_vec(Vec::from_slice(alloc, &[sub])?),
        sites: Items::new(alloc),
        exceptions: Items::new(alloc),
        body,
        nonblocking: text.main_nonblocking,
        strict: false,
    })
}

/// The tokens of the first call that breaks the rule, or none.
fn told(alloc: Global, text: &Text<'_>) -> Result<String, AllocError> {
    let typed = program(alloc, text)?;
    match check(&typed) {
        Ok(()) => format!(in alloc; "kept"),
        Err(Blocked::Call { at, callee }) => format!(in alloc; "{at} {callee}"),
    }
}

const NULL: [Step; 0] = [];

/// `New_Line;`
const NEW_LINE: [Step; 1] = [Step::Put(31)];

/// `if [parallel for I in 1 .. 1 => F]'Reduce ("+", 1) then null; end if;`
const REDUCED: [Step; 9] = [
    Step::Nothing,
    Step::Span,
    Step::Call(55, 57),
    Step::Sum,
    Step::Static,
    Step::Reduced(Some(0)),
    Step::Nothing,
    Step::Nothing,
    Step::If,
];

/// `if [for I in 1 .. 1 => F]'Reduce (F, F) then null; end if;`, where the call that is evaluated last stands first
const ORDERED: [Step; 9] = [
    Step::Nothing,
    Step::Span,
    Step::Call(20, 22),
    Step::Function(38),
    Step::Call(40, 40),
    Step::Reduced(None),
    Step::Nothing,
    Step::Nothing,
    Step::If,
];

/// `if [for I in 1 .. 1 => 1]'Reduce (F, 1) then null; end if;`
const FOLDED: [Step; 9] = [
    Step::Nothing,
    Step::Span,
    Step::Static,
    Step::Function(38),
    Step::Static,
    Step::Reduced(None),
    Step::Nothing,
    Step::Nothing,
    Step::If,
];

/// `if [parallel for I in 1 .. 1 => 1]'Reduce (F, 1) then null; end if;`
const FOLDED_IN_THREADS: [Step; 9] = [
    Step::Nothing,
    Step::Span,
    Step::Static,
    Step::Function(38),
    Step::Static,
    Step::Reduced(Some(0)),
    Step::Nothing,
    Step::Nothing,
    Step::If,
];

/// `if F + 1 + 1 .. then null; end if;`
const SUM: [Step; 5] = [
    Step::Call(7, 9),
    Step::Plus,
    Step::Nothing,
    Step::Nothing,
    Step::If,
];

/// `if 1 then null; elsif 1 .. else New_Line; end if;`
const ELSIF: [Step; 7] = [
    Step::Static,
    Step::Nothing,
    Step::Put(9),
    Step::Nothing,
    Step::Before,
    Step::Elsif,
    Step::If,
];

/// Texts without and with `Nonblocking` at the subprogram and at the main procedure, and where in a parallel loop.
#[test]
fn the_first_call_is_told(rt: HostRuntime) -> Result<(), Fail> {
    let alloc = rt.alloc();
    for (sub, sub_nonblocking, main, main_nonblocking, parallel, answer) in [
        (
            NULL.as_slice(),
            false,
            NEW_LINE.as_slice(),
            false,
            true,
            "31 31",
        ),
        (&NULL, false, &NEW_LINE, false, false, "kept"),
        (&NULL, false, &NEW_LINE, true, false, "31 31"),
        (&NULL, false, &REDUCED, false, false, "55 57"),
        (&NULL, true, &REDUCED, false, false, "kept"),
        (&NEW_LINE, true, &NULL, false, false, "31 31"),
        (&NEW_LINE, false, &NULL, false, true, "kept"),
        (&NEW_LINE, false, &NULL, true, false, "31 31"),
        (&NULL, false, &ORDERED, false, true, "20 22"),
        (&NULL, false, &FOLDED, false, true, "38 38"),
        (&NULL, false, &FOLDED, false, false, "kept"),
        (&NULL, false, &FOLDED_IN_THREADS, false, false, "38 38"),
        (&NULL, false, &SUM, false, true, "7 9"),
        (&NULL, false, &ELSIF, false, true, "9 9"),
    ] {
        let text = Text {
            sub,
            sub_nonblocking,
            main,
            main_nonblocking,
            parallel,
        };
        let words = told(alloc, &text)?;
        assert_eq!(rt; words.as_str(), answer);
    }
    Ok(())
}
