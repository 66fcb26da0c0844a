use ada_base::{Base, Items, Op};
use ada_port::{HeldSink, SureSource};
use run_outside::Ports;
use run_plan::Plan;
use run_store::{Region, Store};
use run_values::{End, Leave};
use run_walk::{Paths, SoundPlan, Work, run};
use std::alloc::{AllocError, Global};
use std::test::Fail;
use typed_parts::Parts;
use typed_tree::{Check, Class, Object, Root, Scalar, Subtype, Typed};

const INTEGER: Class = Class::Integer(Base::Narrow);

const RANGE: Scalar = Scalar {
    class: INTEGER,
    low: -2_147_483_648,
    high: 2_147_483_647,
};

const CHECK: Check = Check {
    at: 0,
    scalar: RANGE,
};

/// A call of `Parts`, with what differs between programs.
enum Step {
    Nothing,
    Also,
    Turn,
    Static(i64),
    Variable(u32),
    Parameter(u32),
    Binary(Op),
    Number,
    Range(u32),
    ChunkCount,
    ChunkEach(u32),
    FoldOperator(Op),
    Reduction(Option<u32>),
    Image,
    Default(u32),
    Declared(u32),
    Assign(u32),
    Get(u32),
    Put,
    For,
    ParallelFor,
    Parallel,
    Body,
}

/// The calls of expressions.
fn join_expression(parts: &mut Parts, step: &Step) -> Result<(), AllocError> {
    match step {
        Step::Also => parts.also(),
        Step::Turn => parts.turn(),
        Step::Static(value) => {
            parts.nothing()?;
            parts.static_value(0, *value, true)
        }
        Step::Variable(object) => {
            parts.nothing()?;
            parts.variable(0, Root::Object(*object), RANGE)
        }
        Step::Parameter(parameter) => parts.parameter(0, *parameter),
        Step::Binary(op) => parts.binary(0, *op, INTEGER),
        Step::Number => parts.number(CHECK),
        Step::Range(parameter) => {
            parts.nothing()?;
            parts.nothing()?;
            parts.range(*parameter, false)
        }
        Step::ChunkCount => parts.chunk_count(),
        Step::ChunkEach(parameter) => {
            parts.nothing()?;
            parts.chunk_each(*parameter)
        }
        Step::FoldOperator(op) => parts.fold_operator(0, *op, INTEGER),
        Step::Reduction(site) => parts.reduction(0, 0, *site),
        _ => parts.nothing(),
    }
}

/// All calls.
fn join(parts: &mut Parts, step: &Step) -> Result<(), AllocError> {
    match step {
        Step::Image => parts.piece_image(INTEGER),
        Step::Default(object) => parts.declare_default(*object),
        Step::Declared(object) => parts.declare_variable(*object),
        Step::Assign(object) => parts.assign(0, Root::Object(*object)),
        Step::Get(object) => {
            parts.nothing()?;
            parts.get(0, 0, 0, Root::Object(*object), RANGE)
        }
        Step::Put => parts.put_pieces(0, 0, true),
        Step::For => parts.loop_for(0),
        Step::ParallelFor => parts.parallel_for(0, 0),
        Step::Parallel => parts.parallel(0),
        Step::Body => parts.body(),
        _ => join_expression(parts, step),
    }
}

fn join_all(parts: &mut Parts, steps: &[Step]) -> Result<(), AllocError> {
    for step in steps {
        join(parts, step)?;
    }
    Ok(())
}

/// `Get (X); for I in 1 .. X loop S := S + I - 1 + 1 + 0; end loop; Put_Line (S'Image);`
const SUM: [Step; 41] = [
    Step::Nothing,
    Step::Default(0),
    Step::Also,
    Step::Static(0),
    Step::Number,
    Step::Declared(1),
    Step::Also,
    Step::Turn,
    Step::Nothing,
    Step::Get(0),
    Step::Also,
    Step::Static(1),
    Step::Variable(0),
    Step::Range(0),
    Step::Nothing,
    Step::Nothing,
    Step::Variable(1),
    Step::Parameter(0),
    Step::Binary(Op::Add),
    Step::Static(1),
    Step::Binary(Op::Sub),
    Step::Static(1),
    Step::Binary(Op::Add),
    Step::Static(0),
    Step::Binary(Op::Add),
    Step::Number,
    Step::Assign(1),
    Step::Also,
    Step::Turn,
    Step::For,
    Step::Also,
    Step::Nothing,
    Step::Variable(1),
    Step::Image,
    Step::Also,
    Step::Turn,
    Step::Put,
    Step::Also,
    Step::Turn,
    Step::Nothing,
    Step::Body,
];

/// `Get (X); S := [for I in 1 .. X => I]'Reduce ("+", 7); Put_Line (S'Image);`
const FOLD: [Step; 33] = [
    Step::Nothing,
    Step::Default(0),
    Step::Also,
    Step::Static(0),
    Step::Number,
    Step::Declared(1),
    Step::Also,
    Step::Turn,
    Step::Nothing,
    Step::Get(0),
    Step::Also,
    Step::Nothing,
    Step::Nothing,
    Step::Static(1),
    Step::Variable(0),
    Step::Range(0),
    Step::Parameter(0),
    Step::FoldOperator(Op::Add),
    Step::Static(7),
    Step::Reduction(None),
    Step::Number,
    Step::Assign(1),
    Step::Also,
    Step::Nothing,
    Step::Variable(1),
    Step::Image,
    Step::Also,
    Step::Turn,
    Step::Put,
    Step::Also,
    Step::Turn,
    Step::Nothing,
    Step::Body,
];

/// `Get (X); S := [parallel (3) for I in 1 .. X => I]'Reduce ("+", 1); Put_Line (S'Image);`
const CHUNKS: [Step; 34] = [
    Step::Nothing,
    Step::Default(0),
    Step::Also,
    Step::Static(0),
    Step::Number,
    Step::Declared(1),
    Step::Also,
    Step::Turn,
    Step::Nothing,
    Step::Get(0),
    Step::Also,
    Step::Nothing,
    Step::Static(3),
    Step::ChunkCount,
    Step::Static(1),
    Step::Variable(0),
    Step::Range(0),
    Step::Parameter(0),
    Step::FoldOperator(Op::Add),
    Step::Static(1),
    Step::Reduction(Some(0)),
    Step::Number,
    Step::Assign(1),
    Step::Also,
    Step::Nothing,
    Step::Variable(1),
    Step::Image,
    Step::Also,
    Step::Turn,
    Step::Put,
    Step::Also,
    Step::Turn,
    Step::Nothing,
    Step::Body,
];

/// `Get (X); S := [parallel (C in 1 .. 4) for I in 1 .. X => C]'Reduce ("+", 0); Put_Line (S'Image);`
const EACH: [Step; 35] = [
    Step::Nothing,
    Step::Default(0),
    Step::Also,
    Step::Static(0),
    Step::Number,
    Step::Declared(1),
    Step::Also,
    Step::Turn,
    Step::Nothing,
    Step::Get(0),
    Step::Also,
    Step::Nothing,
    Step::Static(1),
    Step::Static(4),
    Step::ChunkEach(1),
    Step::Static(1),
    Step::Variable(0),
    Step::Range(0),
    Step::Parameter(1),
    Step::FoldOperator(Op::Add),
    Step::Static(0),
    Step::Reduction(Some(0)),
    Step::Number,
    Step::Assign(1),
    Step::Also,
    Step::Nothing,
    Step::Variable(1),
    Step::Image,
    Step::Also,
    Step::Turn,
    Step::Put,
    Step::Also,
    Step::Turn,
    Step::Nothing,
    Step::Body,
];

/// `Get (X); parallel for I in 1 .. X loop S := S + I - 1 + 1 + 0; end loop; Put_Line (S'Image);`
const LOOP: [Step; 42] = [
    Step::Nothing,
    Step::Default(0),
    Step::Also,
    Step::Static(0),
    Step::Number,
    Step::Declared(1),
    Step::Also,
    Step::Turn,
    Step::Nothing,
    Step::Get(0),
    Step::Also,
    Step::Nothing,
    Step::Static(1),
    Step::Variable(0),
    Step::Range(0),
    Step::Nothing,
    Step::Nothing,
    Step::Variable(1),
    Step::Parameter(0),
    Step::Binary(Op::Add),
    Step::Static(1),
    Step::Binary(Op::Sub),
    Step::Static(1),
    Step::Binary(Op::Add),
    Step::Static(0),
    Step::Binary(Op::Add),
    Step::Number,
    Step::Assign(1),
    Step::Also,
    Step::Turn,
    Step::ParallelFor,
    Step::Also,
    Step::Nothing,
    Step::Variable(1),
    Step::Image,
    Step::Also,
    Step::Turn,
    Step::Put,
    Step::Also,
    Step::Turn,
    Step::Nothing,
    Step::Body,
];

/// `Get (X); parallel do S := 10 + S; and S := 20 + S; and S := X + S; end do; Put_Line (S'Image);`
const BLOCK: [Step; 56] = [
    Step::Nothing,
    Step::Default(0),
    Step::Also,
    Step::Static(0),
    Step::Number,
    Step::Declared(1),
    Step::Also,
    Step::Turn,
    Step::Nothing,
    Step::Get(0),
    Step::Also,
    Step::Nothing,
    Step::Nothing,
    Step::Nothing,
    Step::Nothing,
    Step::Static(10),
    Step::Variable(1),
    Step::Binary(Op::Add),
    Step::Number,
    Step::Assign(1),
    Step::Also,
    Step::Turn,
    Step::Also,
    Step::Nothing,
    Step::Nothing,
    Step::Static(20),
    Step::Variable(1),
    Step::Binary(Op::Add),
    Step::Number,
    Step::Assign(1),
    Step::Also,
    Step::Turn,
    Step::Also,
    Step::Nothing,
    Step::Nothing,
    Step::Variable(0),
    Step::Variable(1),
    Step::Binary(Op::Add),
    Step::Number,
    Step::Assign(1),
    Step::Also,
    Step::Turn,
    Step::Also,
    Step::Turn,
    Step::Parallel,
    Step::Also,
    Step::Nothing,
    Step::Variable(1),
    Step::Image,
    Step::Also,
    Step::Turn,
    Step::Put,
    Step::Also,
    Step::Turn,
    Step::Nothing,
    Step::Body,
];

fn object() -> Object {
    Object {
        name: 0,
        subtype: 0,
        constant: false,
        owner: 0,
        offset: 0,
        cells: 1,
        value: None,
    }
}

fn program(alloc: Global, steps: &[Step]) -> Result<Typed, AllocError> {
    let mut parts = Parts::new(alloc)?;
    join_all(&mut parts, steps)?;
    let mut done = parts.finish();
    let body = done.take().unwrap_or(0);
    Ok(Typed {
        nodes: done.nodes,
        subtypes: Items::from_vec(Vec::from_slice(alloc, &[Subtype::Scalar { scalar: RANGE }])?),
        objects: Items::from_vec(Vec::from_slice(alloc, &[object(), object()])?),
        subs: Items::new(alloc),
        sites: Items::new(alloc),
        exceptions: Items::new(alloc),
        body,
        nonblocking: false,
        strict: false,
    })
}

fn word_of(end: Result<(), End>) -> &'static str {
    match end {
        Ok(()) => "ended",
        Err(End::Left(Leave::Raises(_))) => "raised",
        Err(End::Left(_)) => "left",
        Err(End::Spent) => "spent",
        Err(End::NoMemory) => "memory",
        Err(End::ReadFault) => "read",
        Err(End::WriteFault) => "write",
    }
}

/// How a run of this input ends, and what it puts out.
fn shown(
    alloc: Global,
    steps: &[Step],
    plan: Plan,
    input: &str,
    limit: u64,
) -> Result<String, AllocError> {
    let typed = program(alloc, steps)?;
    let source = SureSource::new(Vec::from_slice(alloc, input.as_bytes())?);
    let ports = Ports::new(source, HeldSink::new(alloc));
    let Ok(mut store) = Store::new(alloc, 4, ports) else {
        return Err(AllocError);
    };
    let Some(plan) = SoundPlan::checked(plan) else {
        return format!(in alloc; "a plan with a zero");
    };
    let paths = Paths::of(alloc, &typed.nodes, typed.body);
    let work = Work {
        typed: &typed,
        paths: &paths,
        plan: &plan,
        limit,
        alloc,
    };
    let end = run(&work, &mut store);
    let (_, sink) = store.into_port().into_parts();
    let mut text = format!(in alloc; "{}:", word_of(end))?;
    for byte in sink.bytes() {
        text.push(char::from(*byte))?;
    }
    Ok(text)
}

#[test]
fn sums_in_order_are_put_out(rt: HostRuntime) -> Result<(), Fail> {
    let alloc = rt.alloc();
    for (steps, input, limit, ends) in [
        (SUM.as_slice(), "10", 100, "ended: 55\n"),
        (&SUM, "100", 1000, "ended: 5050\n"),
        (&SUM, "0", 100, "ended: 0\n"),
        (&SUM, "x", 100, "raised:"),
        (&SUM, "10", 5, "spent:"),
        (&FOLD, "10", 100, "ended: 62\n"),
        (&FOLD, "0", 100, "ended: 7\n"),
    ] {
        let text = shown(alloc, steps, Plan::One, input, limit)?;
        assert_eq!(rt; text.as_str(), ends, "{input}");
    }
    Ok(())
}

// what is active takes room on the native stack, and gives it back
#[test]
fn room_is_taken_and_given_back(rt: HostRuntime) -> Result<(), Fail> {
    let alloc = rt.alloc();
    let ports = Ports::new(SureSource::new(Vec::new(alloc)), HeldSink::new(alloc));
    let Ok(mut store) = Store::new(alloc, 2, ports) else {
        return Err(AllocError.into());
    };
    for _k in 0..400_000 {
        assert!(rt; store.take_room().is_ok());
    }
    let object = run_store::Object::Variable(0);
    assert!(rt; store.take_room().is_err());
    assert!(rt; store.begin(Region::Here, object, &[7]).is_err());
    store.give_room();
    match store.begin(Region::Here, object, &[7]) {
        Ok(mark) => {
            assert!(rt; store.take_room().is_err());
            store.end(Region::Here, object, mark);
        }
        Err(_) => assert!(rt; false, "no room"),
    }
    assert!(rt; store.take_room().is_ok());
    assert!(rt; store.take_room().is_err());
    Ok(())
}

#[test]
fn threads_of_constructs_count_their_turns_apart(rt: HostRuntime) -> Result<(), Fail> {
    let alloc = rt.alloc();
    for (steps, input, limit, ends) in [
        (CHUNKS.as_slice(), "10", 100, "ended: 58\n"),
        (&CHUNKS, "0", 100, "ended: 1\n"),
        (&EACH, "10", 100, "ended: 23\n"),
        (&EACH, "2", 100, "ended: 3\n"),
        (&LOOP, "10", 7, "ended: 55\n"),
        (&LOOP, "10", 6, "spent:"),
        (&BLOCK, "5", 100, "ended: 35\n"),
    ] {
        let text = shown(alloc, steps, Plan::Even(3), input, limit)?;
        assert_eq!(rt; text.as_str(), ends, "{input}");
    }
    Ok(())
}
