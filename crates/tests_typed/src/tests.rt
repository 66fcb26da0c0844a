use crate::readings::{digits, put_expressions, put_statements};
use ada_base::{Base, Comparison, Items, Op, Reason};
use std::alloc::AllocError;
use typed_parts::Parts;
use typed_tree::{
    Check, Class, Expr, Iterated, Leaf, Link, Nodes, Object, Root, Run, Scalar, Sign, Span, Typed,
    eval,
};

const INTEGER: Class = Class::Integer(Base::Narrow);

const RANGE: Scalar = Scalar {
    class: INTEGER,
    low: -2_147_483_648,
    high: 2_147_483_647,
};

const CHECK: Check = Check {
    at: 0,
    scalar: RANGE,
};

const LONG: usize = 100_000;

/// A call of `Parts`, with arguments of its own.
enum Step {
    Also,
    AlsoAll,
    Apart,
    LeaveOut,
    Before,
    Nothing,
    Rotate,
    Swap,
    Turn,
    Byte,
    Choice,
    Run,
    Reason,
    Static(i64),
    Variable,
    Constant,
    Parameter,
    Target,
    Group,
    Unary,
    Binary,
    AndThen,
    OrElse,
    Relation,
    Membership,
    Conditional,
    Call,
    Convert,
    Reduction,
    Field,
    Index,
    In,
    InOut,
    Out,
    CompositeInOut,
    CompositeOut,
    Subtype,
    Number,
    Cells,
    WholeVariable,
    WholeConstant,
    WholeTarget,
    CompositeConditional,
    Aggregate,
    Association,
    Range,
    Components,
    ChunkCount,
    ChunkEach,
    FoldOperator,
    FoldFunction,
    Check,
    Text,
    Image,
    Padded,
    Default,
    DeclaredVariable,
    DeclaredConstant,
    Mentions,
    Others,
    Reasons,
    Body,
    Null,
    Assign,
    CallProcedure,
    Exit,
    Return,
    ReturnValue,
    Raise,
    Reraise,
    IfThen,
    Case,
    Alternative,
    Loop,
    For,
    ParallelFor,
    Parallel,
    Block,
    Put,
    Get,
}

/// A number as an expression.
fn number(parts: &mut Parts, value: i64) -> Result<(), AllocError> {
    parts.nothing()?;
    parts.static_value(0, value, true)
}

/// The calls of places, lists and expressions.
fn join_expression(parts: &mut Parts, step: &Step) -> Result<(), AllocError> {
    match step {
        Step::Also => parts.also(),
        Step::AlsoAll => parts.also_all(),
        Step::Apart => parts.apart(),
        Step::Before => parts.before(),
        Step::Nothing => parts.nothing(),
        Step::Rotate => parts.rotate(),
        Step::Swap => parts.swap(),
        Step::Turn => parts.turn(),
        Step::Byte => parts.also_leaf(Leaf::Byte(120)),
        Step::Choice => parts.also_leaf(Leaf::Span(Span { low: 1, high: 3 })),
        Step::Run => parts.also_leaf(Leaf::Run(Run {
            first: 0,
            count: 3,
            stride: 1,
        })),
        Step::Reason => parts.also_leaf(Leaf::Reason(Reason::ConstraintError)),
        Step::Static(value) => number(parts, *value),
        Step::Variable => parts.variable(0, Root::Object(0), RANGE),
        Step::Constant => parts.constant(0, Root::Object(0), RANGE),
        Step::Parameter => parts.parameter(0, 0),
        Step::Target => parts.target(0, RANGE),
        Step::Group => parts.group(),
        Step::Unary => parts.unary(0, Sign::Abs, Class::Universal),
        Step::Binary => parts.binary(0, Op::Add, Class::Universal),
        Step::AndThen => parts.and_then(),
        Step::OrElse => parts.or_else(),
        Step::Relation => parts.relation(INTEGER, Comparison::Less),
        Step::Membership => parts.membership(INTEGER, true),
        Step::Conditional => parts.conditional(),
        Step::Call => parts.call(0, 0, 0),
        Step::Convert => parts.convert(CHECK),
        Step::Reduction => parts.reduction(0, 0, Some(0)),
        _ => {
            parts.leave_out();
            Ok(())
        }
    }
}

/// The calls of names, values and iterations.
fn join_value(parts: &mut Parts, step: &Step) -> Result<(), AllocError> {
    match step {
        Step::Field => parts.field(0, 0),
        Step::Index => parts.index(0, 1, 3, 1),
        Step::In => parts.actual_in(0),
        Step::InOut => parts.actual_in_out(0, 0, Root::Object(0)),
        Step::Out => parts.actual_out(0, 0, Root::Object(0)),
        Step::CompositeInOut => parts.composite_in_out(0, 0, Root::Object(0), 0),
        Step::CompositeOut => parts.composite_out(0, 0, Root::Object(0), 0),
        Step::Subtype => parts.scalar(RANGE),
        Step::Number => parts.number(CHECK),
        Step::Cells => parts.cells(),
        Step::WholeVariable => parts.whole_variable(0, Root::Object(0), 0),
        Step::WholeConstant => parts.whole_constant(0, Root::Object(0), 0),
        Step::WholeTarget => parts.whole_target(0, 0),
        Step::CompositeConditional => parts.composite_conditional(),
        Step::Aggregate => parts.aggregate(0, 3),
        Step::Association => parts.association(Some(Iterated {
            parameter: 0,
            first: 1,
        })),
        Step::Range => parts.range(0, false),
        Step::Components => parts.components(0, true, 0, Root::Object(0), 3, 1, 1),
        Step::ChunkCount => parts.chunk_count(),
        Step::ChunkEach => parts.chunk_each(0),
        Step::FoldOperator => parts.fold_operator(0, Op::Add, INTEGER),
        Step::FoldFunction => parts.fold_function(0, 0),
        Step::Check => parts.check(CHECK),
        Step::Text => parts.piece_text(),
        Step::Image => parts.piece_image(INTEGER),
        Step::Padded => parts.piece_padded(INTEGER),
        _ => join_expression(parts, step),
    }
}

/// All calls.
fn join(parts: &mut Parts, step: &Step) -> Result<(), AllocError> {
    match step {
        Step::Default => parts.declare_default(0),
        Step::DeclaredVariable => parts.declare_variable(0),
        Step::DeclaredConstant => parts.declare_constant(0),
        Step::Mentions => parts.mentions(),
        Step::Others => parts.handler_others(),
        Step::Reasons => parts.handler_reasons(),
        Step::Body => parts.body(),
        Step::Null => parts.null(),
        Step::Assign => parts.assign(0, Root::Object(0)),
        Step::CallProcedure => parts.call_procedure(0, 0, 0),
        Step::Exit => parts.exit(0),
        Step::Return => parts.return_none(),
        Step::ReturnValue => parts.return_value(),
        Step::Raise => parts.raise(Reason::ProgramError),
        Step::Reraise => parts.reraise(),
        Step::IfThen => parts.if_then(),
        Step::Case => parts.case(),
        Step::Alternative => parts.alternative(false),
        Step::Loop => parts.loop_while(0),
        Step::For => parts.loop_for(0),
        Step::ParallelFor => parts.parallel_for(0, 0),
        Step::Parallel => parts.parallel(0),
        Step::Block => parts.block(),
        Step::Put => parts.put_pieces(0, 0, true),
        Step::Get => parts.get(0, 0, 0, Root::Object(0), RANGE),
        _ => join_value(parts, step),
    }
}

fn join_all(parts: &mut Parts, steps: &[Step]) -> Result<(), AllocError> {
    for step in steps {
        join(parts, step)?;
    }
    Ok(())
}

/// A list of an expression of each kind.
const EXPRESSIONS: [Step; 101] = [
    Step::Nothing,
    Step::Static(1),
    Step::Also,
    Step::Field,
    Step::Nothing,
    Step::Before,
    Step::Variable,
    Step::Also,
    Step::Static(2),
    Step::Index,
    Step::Nothing,
    Step::Before,
    Step::Constant,
    Step::Also,
    Step::Parameter,
    Step::Also,
    Step::Target,
    Step::Also,
    Step::Static(1),
    Step::Group,
    Step::Also,
    Step::Static(1),
    Step::Unary,
    Step::Also,
    Step::Static(1),
    Step::Static(2),
    Step::Binary,
    Step::Also,
    Step::Static(0),
    Step::Static(1),
    Step::AndThen,
    Step::Also,
    Step::Static(0),
    Step::Static(1),
    Step::OrElse,
    Step::Also,
    Step::Static(1),
    Step::Static(2),
    Step::Relation,
    Step::Also,
    Step::Static(2),
    Step::Static(1),
    Step::Static(3),
    Step::Membership,
    Step::Also,
    Step::Static(1),
    Step::Static(2),
    Step::Static(3),
    Step::Conditional,
    Step::Also,
    Step::Nothing,
    Step::Static(1),
    Step::Number,
    Step::In,
    Step::Also,
    Step::Nothing,
    Step::Subtype,
    Step::Subtype,
    Step::InOut,
    Step::Also,
    Step::Nothing,
    Step::Subtype,
    Step::Subtype,
    Step::Out,
    Step::Also,
    Step::Nothing,
    Step::CompositeInOut,
    Step::Also,
    Step::Nothing,
    Step::CompositeOut,
    Step::Also,
    Step::Turn,
    Step::Call,
    Step::Also,
    Step::Static(1),
    Step::Convert,
    Step::Also,
    Step::Static(4),
    Step::ChunkCount,
    Step::Nothing,
    Step::Nothing,
    Step::Components,
    Step::Parameter,
    Step::Subtype,
    Step::Subtype,
    Step::FoldFunction,
    Step::Static(0),
    Step::Reduction,
    Step::Also,
    Step::Nothing,
    Step::Static(1),
    Step::Static(3),
    Step::Nothing,
    Step::Nothing,
    Step::Range,
    Step::Parameter,
    Step::FoldOperator,
    Step::Static(0),
    Step::Reduction,
    Step::Also,
    Step::Turn,
];

/// A body with a statement of each kind.
const STATEMENTS: [Step; 186] = [
    Step::Nothing,
    Step::Nothing,
    Step::Null,
    Step::Also,
    Step::Nothing,
    Step::Static(1),
    Step::Nothing,
    Step::WholeVariable,
    Step::Nothing,
    Step::WholeConstant,
    Step::CompositeConditional,
    Step::Cells,
    Step::Assign,
    Step::Also,
    Step::Nothing,
    Step::WholeTarget,
    Step::Cells,
    Step::Assign,
    Step::Also,
    Step::Nothing,
    Step::Nothing,
    Step::Nothing,
    Step::Run,
    Step::Nothing,
    Step::Static(7),
    Step::Number,
    Step::Association,
    Step::Also,
    Step::Aggregate,
    Step::Cells,
    Step::Assign,
    Step::Also,
    Step::Nothing,
    Step::Static(1),
    Step::Number,
    Step::In,
    Step::Also,
    Step::Nothing,
    Step::Subtype,
    Step::Subtype,
    Step::InOut,
    Step::Also,
    Step::Nothing,
    Step::Subtype,
    Step::Subtype,
    Step::Out,
    Step::Also,
    Step::Nothing,
    Step::CompositeInOut,
    Step::Also,
    Step::Nothing,
    Step::CompositeOut,
    Step::Also,
    Step::Turn,
    Step::CallProcedure,
    Step::Also,
    Step::Nothing,
    Step::Exit,
    Step::Also,
    Step::Return,
    Step::Also,
    Step::Static(1),
    Step::Number,
    Step::ReturnValue,
    Step::Also,
    Step::Raise,
    Step::Also,
    Step::Reraise,
    Step::Also,
    Step::Nothing,
    Step::Nothing,
    Step::Byte,
    Step::Text,
    Step::Also,
    Step::Static(1),
    Step::Image,
    Step::Also,
    Step::Static(1),
    Step::Static(11),
    Step::Padded,
    Step::Also,
    Step::Turn,
    Step::Put,
    Step::Also,
    Step::Nothing,
    Step::Get,
    Step::Also,
    Step::Static(1),
    Step::Nothing,
    Step::Null,
    Step::Also,
    Step::Nothing,
    Step::IfThen,
    Step::Also,
    Step::Static(1),
    Step::Nothing,
    Step::Nothing,
    Step::Choice,
    Step::Nothing,
    Step::Nothing,
    Step::Null,
    Step::Also,
    Step::Alternative,
    Step::Also,
    Step::Case,
    Step::Also,
    Step::Static(1),
    Step::Nothing,
    Step::Null,
    Step::Also,
    Step::Loop,
    Step::Also,
    Step::Static(1),
    Step::Static(3),
    Step::Check,
    Step::Nothing,
    Step::Range,
    Step::Nothing,
    Step::Null,
    Step::Also,
    Step::For,
    Step::Also,
    Step::Static(1),
    Step::Static(4),
    Step::Nothing,
    Step::ChunkEach,
    Step::Static(1),
    Step::Static(3),
    Step::Check,
    Step::Nothing,
    Step::Range,
    Step::Nothing,
    Step::Null,
    Step::Also,
    Step::ParallelFor,
    Step::Also,
    Step::Nothing,
    Step::Nothing,
    Step::Nothing,
    Step::Null,
    Step::Also,
    Step::Also,
    Step::Nothing,
    Step::Null,
    Step::Also,
    Step::Also,
    Step::Turn,
    Step::Parallel,
    Step::Also,
    Step::Nothing,
    Step::Default,
    Step::Also,
    Step::Static(1),
    Step::Number,
    Step::DeclaredVariable,
    Step::Also,
    Step::Static(2),
    Step::Number,
    Step::DeclaredConstant,
    Step::Also,
    Step::Nothing,
    Step::Mentions,
    Step::Also,
    Step::Turn,
    Step::Nothing,
    Step::Null,
    Step::Also,
    Step::Nothing,
    Step::Nothing,
    Step::Reason,
    Step::Nothing,
    Step::Null,
    Step::Also,
    Step::Reasons,
    Step::Also,
    Step::Nothing,
    Step::Null,
    Step::Also,
    Step::Others,
    Step::Also,
    Step::Turn,
    Step::Block,
    Step::Also,
    Step::Turn,
    Step::Nothing,
    Step::Body,
];

/// Numbers as parts, the latest of which is a list.
const LISTS: [Step; 20] = [
    Step::Nothing,
    Step::Static(4),
    Step::Also,
    Step::Nothing,
    Step::Static(5),
    Step::Also,
    Step::Static(6),
    Step::Also,
    Step::Turn,
    Step::AlsoAll,
    Step::Static(7),
    Step::Also,
    Step::Turn,
    Step::Apart,
    Step::Static(8),
    Step::Static(9),
    Step::LeaveOut,
    Step::Swap,
    Step::Rotate,
    Step::Swap,
];

/// A static constant, a number, and a sum of both.
const VALUES: [Step; 7] = [
    Step::Nothing,
    Step::Constant,
    Step::Static(3),
    Step::Nothing,
    Step::Constant,
    Step::Static(3),
    Step::Binary,
];

const EXPRESSION_WORDS: &str =
    "static variable constant parameter target group unary binary and_then \
    or_else relation membership if call convert reduction reduction ";

#[test]
fn expressions_of_each_kind_are_read_in_their_order(rt: HostRuntime) -> Result<(), AllocError> {
    let mut parts = Parts::new(rt.alloc())?;
    join_all(&mut parts, &EXPRESSIONS)?;
    let mut done = parts.finish();
    let mut words = String::new(rt.alloc());
    if let Some(list) = done.take() {
        put_expressions(&mut words, &done.nodes, list)?;
    }
    assert!(rt; words.as_str() == EXPRESSION_WORDS);
    assert!(rt; done.take().is_none());
    Ok(())
}

const STATEMENT_WORDS: &str =
    "null assign assign assign call exit return return_value raise reraise put get \
    if case loop for parallel_for parallel block ";

#[test]
fn statements_of_each_kind_are_read_in_their_order(rt: HostRuntime) -> Result<(), AllocError> {
    let mut parts = Parts::new(rt.alloc())?;
    join_all(&mut parts, &STATEMENTS)?;
    let mut done = parts.finish();
    let mut words = String::new(rt.alloc());
    if let Some(root) = done.take() {
        if let Some(body) = done.nodes.body(root) {
            put_statements(&mut words, &done.nodes, body.stmts)?;
        }
    }
    assert!(rt; words.as_str() == STATEMENT_WORDS);
    assert!(rt; done.take().is_none());
    Ok(())
}

#[test]
fn lists_grow_by_lists_and_are_taken_apart(rt: HostRuntime) -> Result<(), AllocError> {
    let mut parts = Parts::new(rt.alloc())?;
    join_all(&mut parts, &LISTS)?;
    let mut done = parts.finish();
    assert!(rt; done.roots.len() == 3);
    for want in [567, 4, 8] {
        if let Some(root) = done.take() {
            assert!(rt; digits(&done.nodes, root) == want);
        }
    }
    Ok(())
}

#[test]
fn static_values_are_those_of_constants_and_numbers(rt: HostRuntime) -> Result<(), AllocError> {
    let mut parts = Parts::new(rt.alloc())?;
    join_all(&mut parts, &VALUES)?;
    let done = parts.finish();
    let mut objects = Items::new(rt.alloc());
    objects.push(Object {
        name: 4,
        subtype: 0,
        constant: true,
        owner: 0,
        offset: 0,
        cells: 1,
        value: Some(5),
    })?;
    let typed = Typed {
        nodes: done.nodes,
        subtypes: Items::new(rt.alloc()),
        objects,
        subs: Items::new(rt.alloc()),
        sites: Items::new(rt.alloc()),
        exceptions: Items::new(rt.alloc()),
        body: 0,
        nonblocking: false,
        strict: true,
    };
    assert!(rt; done.roots.len() == 3);
    for (place, want) in [(0usize, Some(5)), (1, Some(3)), (2, None)] {
        if let Some(root) = done.roots.get(place) {
            assert!(rt; eval(&typed, *root) == want);
        }
    }
    Ok(())
}

/// How many operators of a chain have a class that isn't universal.
fn settled_operators(links: &[Link]) -> usize {
    let mut count = 0usize;
    for link in links {
        if let Link::Operator {
            class: Class::Integer(_),
            ..
        } = link
        {
            count = count.wrapping_add(1);
        }
    }
    count
}

#[test]
fn a_long_chain_of_operators_is_settled(rt: HostRuntime) -> Result<(), AllocError> {
    let mut parts = Parts::new(rt.alloc())?;
    number(&mut parts, 1)?;
    for _ in 0..LONG {
        join_all(&mut parts, &[Step::Static(1), Step::Binary])?;
    }
    parts.settle(INTEGER)?;
    let mut done = parts.finish();
    let mut links = Items::new(rt.alloc());
    if let Some(root) = done.take() {
        let _first = done.nodes.operands(root, &mut links)?;
    }
    assert!(rt; links.len() == LONG);
    assert!(rt; settled_operators(links.as_slice()) == LONG);
    Ok(())
}

/// The expression after the last `else` of so many.
fn last_of(nodes: &Nodes, root: u32, count: usize) -> Expr {
    let mut at = root;
    for _ in 0..count {
        if let Expr::If { otherwise, .. } = nodes.expr(at) {
            at = otherwise;
        }
    }
    nodes.expr(at)
}

#[test]
fn a_long_chain_of_conditions_is_settled(rt: HostRuntime) -> Result<(), AllocError> {
    let mut parts = Parts::new(rt.alloc())?;
    join_all(&mut parts, &[Step::Static(1), Step::Unary])?;
    for _ in 0..LONG {
        join_all(
            &mut parts,
            &[
                Step::Static(0),
                Step::Static(1),
                Step::Rotate,
                Step::Conditional,
            ],
        )?;
    }
    parts.settle(INTEGER)?;
    let mut done = parts.finish();
    assert!(rt; done.roots.len() == 1);
    if let Some(root) = done.take() {
        let last = last_of(&done.nodes, root, LONG);
        assert!(rt;
            matches!(
                last,
                Expr::Unary {
                    class: Class::Integer(_),
                    ..
                }
            )
        );
    }
    Ok(())
}
