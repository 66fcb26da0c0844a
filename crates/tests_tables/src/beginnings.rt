use std::alloc::Global;
use syntax_first_tokens::{of_simple, of_stmt, of_stmts};
use syntax_nodes::{
    Definition, Four, Leaf, ListKind, One, Parts, Three, Tree, Two, also, bare, begin, close,
    finish, four, leaf, leave_out, nothing, one, swap, take_name, three, two,
};
use syntax_readers::Failure;
use syntax_tree::{Additive, Sign};

/// A call that joins parts.
enum Step {
    Nothing,
    Leaf(Leaf),
    One(One),
    Two(Two),
    Four(Four),
    Three(Three),
    Also(ListKind),
    Close(ListKind),
    Swap,
    LeaveOut,
}

fn join(out: &mut Parts, step: &Step) -> Result<(), Failure> {
    match step {
        Step::Nothing => nothing(out),
        Step::Leaf(form) => leaf(out, *form),
        Step::One(form) => one(out, *form),
        Step::Two(form) => two(out, *form),
        Step::Three(form) => three(out, *form),
        Step::Four(form) => four(out, *form),
        Step::Also(kind) => also(out, *kind),
        Step::Close(kind) => close(out, *kind),
        Step::Swap => swap(out),
        Step::LeaveOut => {
            leave_out(out);
            Ok(())
        }
    }
}

fn join_all(out: &mut Parts, steps: &[Step]) -> Result<(), Failure> {
    for step in steps {
        join(out, step)?;
    }
    Ok(())
}

const FRONT: &[Step] = &[
    Step::Nothing,
    Step::Nothing,
    Step::Close(ListKind::Clauses),
    Step::Nothing,
    Step::Nothing,
    Step::Leaf(Leaf::Null(4)),
    Step::Nothing,
];

const BACK: &[Step] = &[
    Step::Close(ListKind::Stmts),
    Step::Two(Two::Stmts),
    Step::Nothing,
    Step::Two(Two::Body),
    Step::Leaf(Leaf::Token(1)),
    Step::Four(Four::Main(0, 1)),
    Step::Three(Three::Program),
];

/// `procedure Main is begin null; null; .. end Main;` with so many statements; the tokens of the nth are 4 + 2n on.
fn statements(alloc: Global, count: u32) -> Result<Tree, Failure> {
    let mut out = begin(alloc);
    join_all(&mut out, FRONT)?;
    for n in 1..count {
        leaf(&mut out, Leaf::Null(n.wrapping_mul(2).wrapping_add(4)))?;
        also(&mut out, ListKind::Stmts)?;
    }
    join_all(&mut out, BACK)?;
    Ok(finish(out))
}

/// Whether there are so many statements, with their first tokens counted up by 2 from 4 on.
fn walks(tree: &Tree, count: u32) -> bool {
    let body = tree.body(tree.main(tree.program(tree.root()).main).body);
    let stmts = tree.stmts(body.stmts);
    let mut at = stmts.more;
    for n in 1..count {
        match tree.cell(at) {
            Some(cell) if of_stmt(tree, cell.first) == n.wrapping_mul(2).wrapping_add(4) => {
                at = cell.rest;
            }
            _ => return false,
        }
    }
    of_stmts(tree, body.stmts) == 4 && tree.cell(at).is_none()
}

#[test]
fn a_list_is_walked_front_to_back_whatever_its_length(rt: HostRuntime) {
    for count in [1, 2, 3, 100_000] {
        match statements(rt.alloc(), count) {
            Ok(tree) => assert!(rt; walks(&tree, count)),
            Err(_) => assert!(rt; false),
        }
    }
}

// Sums, the identifier that each is, and whether it is a name.
const SUMS: &[(&[Step], Option<u32>, bool)] = &[
    (&[Step::Leaf(Leaf::Identifier(7))], Some(7), true),
    // A.B
    (
        &[
            Step::Nothing,
            Step::Leaf(Leaf::Field(9)),
            Step::Also(ListKind::NameParts),
            Step::Close(ListKind::NameParts),
            Step::One(One::Name(7)),
        ],
        None,
        true,
    ),
    // - A
    (
        &[
            Step::Leaf(Leaf::Identifier(7)),
            Step::Nothing,
            Step::Two(Two::Sum(Some(Sign::Minus(6)))),
        ],
        None,
        false,
    ),
    // A + 1
    (
        &[
            Step::Leaf(Leaf::Identifier(7)),
            Step::Nothing,
            Step::Leaf(Leaf::Number(9)),
            Step::One(One::Adding(Additive::Plus, 8)),
            Step::Also(ListKind::Addings),
            Step::Close(ListKind::Addings),
            Step::Two(Two::Sum(None)),
        ],
        None,
        false,
    ),
    // 1, and A behind it, which change places
    (
        &[
            Step::Leaf(Leaf::Number(5)),
            Step::Leaf(Leaf::Identifier(7)),
            Step::Swap,
        ],
        None,
        false,
    ),
    // A, and 1 behind it, which is left out
    (
        &[
            Step::Leaf(Leaf::Identifier(7)),
            Step::Leaf(Leaf::Number(8)),
            Step::LeaveOut,
        ],
        Some(7),
        true,
    ),
];

/// Whether a sum is this identifier, and a name.
fn is_named(
    alloc: Global,
    steps: &[Step],
    identifier: Option<u32>,
    name: bool,
) -> Result<bool, Failure> {
    let mut out = begin(alloc);
    join_all(&mut out, steps)?;
    let found = bare(&out);
    let taken = take_name(&mut out)?;
    Ok(found == identifier && taken == name)
}

#[test]
fn which_sums_are_names(rt: HostRuntime) {
    for &(steps, identifier, name) in SUMS {
        match is_named(rt.alloc(), steps, identifier, name) {
            Ok(answer) => assert!(rt; answer),
            Err(_) => assert!(rt; false),
        }
    }
}

// Definitions of types, and the first token of the modulus of one that is modular (3.5.4).
const DEFINITIONS: &[(&[Step], Option<u32>)] = &[
    // mod 256
    (
        &[Step::Leaf(Leaf::Number(7)), Step::One(One::ModularType)],
        Some(7),
    ),
    // mod 2 ** 64
    (
        &[
            Step::Leaf(Leaf::Number(7)),
            Step::Leaf(Leaf::Number(9)),
            Step::Two(Two::Power(8)),
            Step::One(One::ModularType),
        ],
        Some(7),
    ),
    // mod - A
    (
        &[
            Step::Leaf(Leaf::Identifier(8)),
            Step::Nothing,
            Step::Two(Two::Sum(Some(Sign::Minus(7)))),
            Step::One(One::ModularType),
        ],
        Some(7),
    ),
    // range 1 .. 9
    (
        &[
            Step::Leaf(Leaf::Number(7)),
            Step::Leaf(Leaf::Number(9)),
            Step::Two(Two::RangeType),
        ],
        None,
    ),
];

/// The first token of the modulus, where the definition of these steps is modular.
fn modulus(alloc: Global, steps: &[Step]) -> Result<Option<u32>, Failure> {
    let mut out = begin(alloc);
    join_all(&mut out, steps)?;
    let tree = finish(out);
    match tree.definition(tree.root()) {
        Definition::ModularType(sum) => Ok(Some(of_simple(&tree, sum))),
        _ => Ok(None),
    }
}

#[test]
fn which_definitions_are_modular(rt: HostRuntime) {
    for &(steps, want) in DEFINITIONS {
        match modulus(rt.alloc(), steps) {
            Ok(found) => assert!(rt; found == want),
            Err(_) => assert!(rt; false),
        }
    }
}
