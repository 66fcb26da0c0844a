use ada_base::{Base, Items};
use code_validity::validate;
use stack_code::{Around, Code, CodeSub, Instr, Spot};
use std::alloc::{AllocError, Global};

// What holds before an instruction of the main procedure, of such a height.
const fn at(stack: u32) -> Spot {
    Spot {
        body: Around::Sub(0),
        stack,
        nest: 0,
        held: None,
    }
}

// A main procedure of these instructions, before which the operand stack has these heights, and which says so of the greatest.
fn code_of(
    alloc: Global,
    list: &[Instr],
    heights: &[u32],
    greatest: u32,
) -> Result<Code, AllocError> {
    let mut instrs = Items::new(alloc);
    for instr in list {
        instrs.push(*instr)?;
    }
    let mut spots = Items::new(alloc);
    for height in heights {
        spots.push(at(*height))?;
    }
    let mut subs = Items::new(alloc);
    subs.push(CodeSub {
        entry: 0,
        frame: 1,
        stack: greatest,
        takes: 0,
        gives: false,
    })?;
    Ok(Code {
        instrs,
        spots,
        unwind: Items::new(alloc),
        sites: Items::new(alloc),
        subs,
        texts: Items::new(alloc),
    })
}

fn is_valid(
    alloc: Global,
    list: &[Instr],
    heights: &[u32],
    greatest: u32,
) -> Result<bool, AllocError> {
    let code = code_of(alloc, list, heights, greatest)?;
    Ok(validate(&code))
}

#[test]
fn a_procedure_that_keeps_the_rules_is_valid(rt: HostRuntime) {
    let list = [Instr::Push(5), Instr::StoreL(0), Instr::Halt];
    let valid = is_valid(rt.alloc(), &list, &[0, 1, 0], 1);
    assert!(rt; valid.expect(&rt, "memory"));
}

#[test]
fn each_rule_that_is_broken_is_found(rt: HostRuntime) {
    let stores = [Instr::Push(5), Instr::StoreL(0), Instr::Halt];
    let too_high = is_valid(rt.alloc(), &stores, &[0, 1, 0], 0);
    assert!(rt;
        !too_high.expect(&rt, "memory"),
        "above the greatest height"
    );
    let lacking = is_valid(rt.alloc(), &stores, &[0, 0, 0], 1);
    assert!(rt; !lacking.expect(&rt, "memory"), "without an operand");
    let fewer = is_valid(rt.alloc(), &stores, &[0, 1], 1);
    assert!(rt;
        !fewer.expect(&rt, "memory"),
        "an instruction without its spot"
    );
    let outside = [Instr::Push(5), Instr::StoreL(1), Instr::Halt];
    let beyond = is_valid(rt.alloc(), &outside, &[0, 1, 0], 1);
    assert!(rt; !beyond.expect(&rt, "memory"), "a cell outside the frame");
    let away = [Instr::Jump(2), Instr::Halt];
    let astray = is_valid(rt.alloc(), &away, &[0, 0], 0);
    assert!(rt; !astray.expect(&rt, "memory"), "a jump out of the code");
}

// A modular type has 1 to 64 binary digits.
#[test]
fn digits_of_modular_types_are_tested(rt: HostRuntime) {
    for &(digits, want) in &[(0_u8, false), (1, true), (64, true), (65, false)] {
        let base = Base::Modulo(digits);
        let turns = [Instr::Push(1), Instr::BNot(digits), Instr::Pop, Instr::Halt];
        let turned = is_valid(rt.alloc(), &turns, &[0, 1, 1, 0], 1);
        assert!(rt; turned.expect(&rt, "memory") == want, "BNOT {digits}");
        let negates = [Instr::Push(1), Instr::Neg(base), Instr::Pop, Instr::Halt];
        let negated = is_valid(rt.alloc(), &negates, &[0, 1, 1, 0], 1);
        assert!(rt; negated.expect(&rt, "memory") == want, "NEG m{digits}");
        let adds = [
            Instr::Push(1),
            Instr::AddI(2, base),
            Instr::Pop,
            Instr::Halt,
        ];
        let added = is_valid(rt.alloc(), &adds, &[0, 1, 1, 0], 1);
        assert!(rt; added.expect(&rt, "memory") == want, "ADDI 2 m{digits}");
    }
}
