//! The first part of an expression of a universal type that is no number of a modular type (3.5.4).

use ada_base::Op;
use std::alloc::{AllocError, Global};
use typed_parts::Parts;
use typed_tree::{Class, Sign};

/// A call of `Parts`, a static value with its token.
#[derive(Clone, Copy)]
enum Step {
    Nothing,
    Static(u32, i64),
    Parameter,
    Group,
    Minus,
    Operator(Op),
    Conditional,
    Rotate,
    Reducer,
    Reduction,
}

fn join(parts: &mut Parts, step: &Step) -> Result<(), AllocError> {
    match step {
        Step::Nothing => parts.nothing(),
        Step::Static(at, value) => {
            parts.nothing()?;
            parts.static_value(*at, *value, true)
        }
        Step::Parameter => parts.parameter(0, 0),
        Step::Group => parts.group(),
        Step::Minus => parts.unary(0, Sign::Minus, Class::Universal),
        Step::Operator(op) => parts.binary(0, *op, Class::Universal),
        Step::Conditional => parts.conditional(),
        Step::Rotate => parts.rotate(),
        Step::Reducer => parts.fold_operator(0, Op::Add, Class::Universal),
        Step::Reduction => parts.reduction(0, 0, None),
    }
}

fn join_all(parts: &mut Parts, steps: &[Step]) -> Result<(), AllocError> {
    for step in steps {
        join(parts, step)?;
    }
    Ok(())
}

/// The first such part of the expression of these steps.
fn beyond(alloc: Global, steps: &[Step], digits: u8) -> Result<Option<u32>, AllocError> {
    let mut parts = Parts::new(alloc)?;
    join_all(&mut parts, steps)?;
    parts.beyond_digits(digits)
}

// Numbers, how many binary digits there are, and whether the number has no more.
const NUMBERS: &[(i64, u8, bool)] = &[
    (0, 1, true),
    (1, 1, true),
    (2, 1, false),
    (255, 8, true),
    (256, 8, false),
    (-1, 8, false),
    (i64::MAX, 63, true),
    // what stands for 2 ** 63
    (i64::MIN, 63, false),
    (i64::MIN, 64, true),
    (-1, 64, true),
];

#[test]
fn numbers_have_so_many_digits_or_more(rt: HostRuntime) -> Result<(), AllocError> {
    for &(value, digits, within) in NUMBERS {
        let found = beyond(rt.alloc(), &[Step::Static(7, value)], digits)?;
        assert!(rt; found.is_none() == within);
        assert!(rt; within || found == Some(7));
    }
    Ok(())
}

// Expressions, and the first token of the first part that isn't below 256.
const EXPRESSIONS: &[(&[Step], Option<u32>)] = &[
    // a parameter
    (&[Step::Parameter], None),
    // - (256)
    (&[Step::Static(7, 256), Step::Group, Step::Minus], Some(7)),
    // 255 + 256
    (
        &[
            Step::Static(5, 255),
            Step::Static(7, 256),
            Step::Operator(Op::Add),
        ],
        Some(7),
    ),
    // 256 * 257
    (
        &[
            Step::Static(5, 256),
            Step::Static(7, 257),
            Step::Operator(Op::Mul),
        ],
        Some(5),
    ),
    // 2 ** 300
    (
        &[
            Step::Static(5, 2),
            Step::Static(7, 300),
            Step::Operator(Op::Pow),
        ],
        None,
    ),
    // 300 ** 2 + 256
    (
        &[
            Step::Static(3, 300),
            Step::Static(5, 2),
            Step::Operator(Op::Pow),
            Step::Static(7, 256),
            Step::Operator(Op::Add),
        ],
        Some(3),
    ),
    // if 256 then 1 else 2, whatever the condition is
    (
        &[
            Step::Static(3, 256),
            Step::Static(5, 1),
            Step::Static(7, 2),
            Step::Conditional,
        ],
        None,
    ),
    // (if P then 256 else 257) + 258
    (
        &[
            Step::Parameter,
            Step::Static(5, 256),
            Step::Static(7, 257),
            Step::Conditional,
            Step::Group,
            Step::Static(9, 258),
            Step::Operator(Op::Add),
        ],
        Some(5),
    ),
    // (if P then 1 else 256) + 257
    (
        &[
            Step::Parameter,
            Step::Static(5, 1),
            Step::Static(7, 256),
            Step::Conditional,
            Step::Group,
            Step::Static(9, 257),
            Step::Operator(Op::Add),
        ],
        Some(7),
    ),
    // a reduction of 256 from 257
    (
        &[
            Step::Nothing,
            Step::Nothing,
            Step::Static(5, 256),
            Step::Reducer,
            Step::Static(7, 257),
            Step::Reduction,
        ],
        Some(5),
    ),
    // a reduction of 1 from 256
    (
        &[
            Step::Nothing,
            Step::Nothing,
            Step::Static(5, 1),
            Step::Reducer,
            Step::Static(7, 256),
            Step::Reduction,
        ],
        Some(7),
    ),
];

#[test]
fn the_first_part_in_the_text_is_found(rt: HostRuntime) -> Result<(), AllocError> {
    for &(steps, want) in EXPRESSIONS {
        assert!(rt; beyond(rt.alloc(), steps, 8)? == want);
    }
    Ok(())
}

const LONG: u32 = 100_000;

// What a long sum begins with and ends with, and the part that is found. There are 1 at 5 between the two.
const SUMS: &[(i64, i64, Option<u32>)] = &[(1, 1, None), (256, 256, Some(3)), (1, 256, Some(7))];

#[test]
fn a_long_chain_of_operators_is_gone_through(rt: HostRuntime) -> Result<(), AllocError> {
    for &(first, last, want) in SUMS {
        let mut parts = Parts::new(rt.alloc())?;
        join(&mut parts, &Step::Static(3, first))?;
        for _ in 0..LONG {
            join_all(&mut parts, &[Step::Static(5, 1), Step::Operator(Op::Add)])?;
        }
        join_all(
            &mut parts,
            &[Step::Static(7, last), Step::Operator(Op::Add)],
        )?;
        assert!(rt; parts.beyond_digits(8)? == want);
    }
    Ok(())
}

#[test]
fn a_long_chain_of_conditions_is_gone_through(rt: HostRuntime) -> Result<(), AllocError> {
    for (last, want) in [(1, None), (256, Some(7))] {
        let mut parts = Parts::new(rt.alloc())?;
        join(&mut parts, &Step::Static(7, last))?;
        for _ in 0..LONG {
            join_all(
                &mut parts,
                &[
                    Step::Parameter,
                    Step::Static(5, 1),
                    Step::Rotate,
                    Step::Conditional,
                ],
            )?;
        }
        assert!(rt; parts.beyond_digits(8)? == want);
    }
    Ok(())
}
