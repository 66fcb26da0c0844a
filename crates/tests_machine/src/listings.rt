use ada_base::{Base, Items, Reason};
use code_listing::listing;
use stack_code::{Around, Code, CodeSite, CodeSub, Instr, SiteKind, Unwind};
use std::alloc::{AllocError, Global};

// Those instructions, and empty tables.
fn bare(alloc: Global, list: &[Instr]) -> Result<Code, AllocError> {
    let mut instrs = Items::new(alloc);
    for instr in list {
        instrs.push(*instr)?;
    }
    Ok(Code {
        instrs,
        spots: Items::new(alloc),
        unwind: Items::new(alloc),
        sites: Items::new(alloc),
        subs: Items::new(alloc),
        texts: Items::new(alloc),
    })
}

#[test]
fn one_line_an_instruction(rt: HostRuntime) {
    let three = [Instr::Push(5), Instr::Pop, Instr::Halt];
    let code = bare(rt.alloc(), &three).expect(&rt, "memory");
    let text = listing(rt.alloc(), &code).expect(&rt, "memory");
    assert!(rt; text.as_str() == "0 PUSH 5\n1 POP\n2 HALT\n", "{text}");
}

fn with_tables(alloc: Global) -> Result<Code, AllocError> {
    let list = [
        Instr::Index(-1, 4, 2),
        Instr::Fill(3, -7),
        Instr::CallAt(1, 2),
        Instr::Raise(Reason::Declared(3)),
        Instr::Next(0, 1, 4),
        Instr::Part,
        Instr::CallTo(1, 2, 5),
        Instr::Repeat(3),
        Instr::Again(8),
        Instr::ModI(-3, Base::Narrow),
        Instr::IndexG(6, -1, 4, 2, 5),
        Instr::SetL(7, -9, 8),
        Instr::Far(4096),
    ];
    let mut code = bare(alloc, &list)?;
    code.unwind.push(Unwind {
        from: 1,
        to: 2,
        handler: 3,
        depth: 4,
        nest: 5,
    })?;
    code.sites.push(CodeSite {
        entry: 6,
        frame: 7,
        stack: 8,
        around: Around::Sub(0),
        kind: SiteKind::Loop,
        leases: Items::new(alloc),
    })?;
    code.subs.push(CodeSub {
        entry: 9,
        frame: 10,
        stack: 11,
        takes: 12,
        gives: true,
    })?;
    Ok(code)
}

#[test]
fn lines_of_tables_follow(rt: HostRuntime) {
    let code = with_tables(rt.alloc()).expect(&rt, "memory");
    let text = listing(rt.alloc(), &code).expect(&rt, "memory");
    let lines =
        "0 INDEX -1 4 2\n1 FILL 3 -7\n2 CALLAT 1 2\n3 RAISE 8\n4 NEXT 0 1 4\n5 PART\n6 CALLTO 1 2 5\n\
        7 REPEAT 3\n8 AGAIN 8\n9 MODI -3 32\n10 INDEXG 6 -1 4 2 5\n11 SETL 7 -9 8\n12 FAR 4096\n\
        UNWIND 1 2 3 4 5\nSITE 0 6 7 8\nSUB 0 9 10 11 12 1\n";
    assert!(rt; text.as_str() == lines, "{text}");
}

// The base range is the last operand: `m` and the number of binary digits, of a modular type.
#[test]
fn lines_of_modular_types(rt: HostRuntime) {
    let list = [
        Instr::Add(Base::Modulo(8)),
        Instr::Pow(Base::Modulo(64)),
        Instr::Neg(Base::Modulo(1)),
        Instr::Abs(Base::Wide),
        Instr::Div(Base::Narrow),
        Instr::AddI(5, Base::Modulo(8)),
        Instr::ModI(-1, Base::Modulo(64)),
        Instr::BNot(8),
        Instr::URange(0, -1),
        Instr::USetL(7, 8, -9),
    ];
    let code = bare(rt.alloc(), &list).expect(&rt, "memory");
    let text = listing(rt.alloc(), &code).expect(&rt, "memory");
    let lines =
        "0 ADD m8\n1 POW m64\n2 NEG m1\n3 ABS 64\n4 DIV 32\n5 ADDI 5 m8\n6 MODI -1 m64\n7 BNOT 8\n\
        8 URANGE 0 -1\n9 USETL 7 8 -9\n";
    assert!(rt; text.as_str() == lines, "{text}");
}

#[test]
fn words_of_modular_types_that_stand_alone(rt: HostRuntime) {
    let list = [
        Instr::ULt,
        Instr::ULe,
        Instr::UGt,
        Instr::UGe,
        Instr::UMax,
        Instr::UMin,
        Instr::UImg,
    ];
    let code = bare(rt.alloc(), &list).expect(&rt, "memory");
    let text = listing(rt.alloc(), &code).expect(&rt, "memory");
    let lines = "0 ULT\n1 ULE\n2 UGT\n3 UGE\n4 UMAX\n5 UMIN\n6 UIMG\n";
    assert!(rt; text.as_str() == lines, "{text}");
}
