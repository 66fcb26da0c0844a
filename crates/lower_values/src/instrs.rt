//! The instructions of operators and of what is named.

ghost use Rattle.std.specs.Prelude.{◌≡◌, cond};
ghost use Rattle.lower_emission.specs.Emission as spec;
ghost use Rattle.lower_emission.specs.Scope as scope;
ghost use Rattle.ada_meaning.specs.Values.{is_modular};

use ada_base::{Comparison, Op};
use lower_emission::types::{Level, Named, Where};
use run_values::{base_of, digits_in};
use stack_code::Instr;
use typed_tree::{Class, Scalar, Sign};

// The one of two instructions that works on numbers of a class.
fn either(class: Class, modular: Instr, other: Instr) -> Instr
    ensures { result ≡ cond (is_modular class) modular other }
{
    match digits_in(class) {
        Some(_) => modular,
        None => other,
    }
}

/// The instruction of a sign or of `not`, on operands of a class (4.5.4, 4.5.6).
pub fn unary_instr(sign: Sign, class: Class) -> Instr
    ensures { result ≡ spec.unary_instr sign class }
{
    match sign {
        Sign::Minus => Instr::Neg(base_of(class)),
        Sign::Abs => Instr::Abs(base_of(class)),
        Sign::Not => match digits_in(class) {
            Some(count) => Instr::BNot(count),
            None => Instr::Flip,
        },
    }
}

/// The instruction that raises Constraint_Error unless the top is one of a subtype's numbers (3.5).
pub fn check_instr(scalar: Scalar) -> Instr
    ensures { result ≡ spec.check_instr scalar }
{
    either(
        scalar.class,
        Instr::URange(scalar.low, scalar.high),
        Instr::Range(scalar.low, scalar.high),
    )
}

/// The same, which writes the top to a cell of the own frame then.
pub fn set_instr(scalar: Scalar, cell: u32) -> Instr
    ensures { result ≡ scope.set_instr scalar cell }
{
    either(
        scalar.class,
        Instr::USetL(cell, scalar.low, scalar.high),
        Instr::SetL(cell, scalar.low, scalar.high),
    )
}

/// The instruction of an operator of two operands of a class (4.5.1, 4.5.3, 4.5.5, 4.5.6), and of Max and Min.
pub fn binary_instr(op: Op, class: Class) -> Instr
    ensures { result ≡ spec.binary_instr op class }
{
    let base = base_of(class);
    match op {
        Op::Add => Instr::Add(base),
        Op::Sub => Instr::Sub(base),
        Op::Mul => Instr::Mul(base),
        Op::Div => Instr::Div(base),
        Op::Mod => Instr::Mod(base),
        Op::Rem => Instr::Rem(base),
        Op::Pow => Instr::Pow(base),
        Op::And => either(class, Instr::And, Instr::Min),
        Op::Or => either(class, Instr::Or, Instr::Max),
        Op::Xor => either(class, Instr::Xor, Instr::Differ),
        Op::Max => either(class, Instr::UMax, Instr::Max),
        Op::Min => either(class, Instr::UMin, Instr::Min),
    }
}

/// The instruction of an operator whose right operand stands in it, if there is one.
pub fn fixed_instr(op: Op, class: Class, value: i64) -> Option<Instr>
    ensures { result ≡ spec.fixed_instr op class value }
{
    let base = base_of(class);
    match op {
        Op::Add => Some(Instr::AddI(value, base)),
        Op::Sub => Some(Instr::SubI(value, base)),
        Op::Mul => Some(Instr::MulI(value, base)),
        Op::Mod => Some(Instr::ModI(value, base)),
        Op::Div | Op::Rem | Op::Pow | Op::And | Op::Or | Op::Xor | Op::Max | Op::Min => None,
    }
}

/// The instruction of a comparison of numbers of a class (4.5.2).
pub fn compare_instr(comparison: Comparison, class: Class) -> Instr
    ensures { result ≡ spec.compare_instr comparison class }
{
    match comparison {
        Comparison::Equal => Instr::Eq,
        Comparison::Unequal => Instr::Ne,
        Comparison::Less => either(class, Instr::ULt, Instr::Lt),
        Comparison::AtMost => either(class, Instr::ULe, Instr::Le),
        Comparison::Greater => either(class, Instr::UGt, Instr::Gt),
        Comparison::AtLeast => either(class, Instr::UGe, Instr::Ge),
    }
}

/// The instruction that loads the cell at a place: of the own frame, of one so many frames outward, or of the main one.
pub fn load_of(place: Where) -> Instr
    ensures { result ≡ scope.load_of place }
{
    match place.level {
        Level::Own => Instr::LoadL(place.cell),
        Level::Around(frames) => Instr::LoadO(frames, place.cell),
        Level::Main => Instr::LoadG(place.cell),
    }
}

/// The instruction that stores into the cell at a place.
pub fn store_at(place: Where) -> Instr
    ensures { result ≡ scope.store_at place.level place.cell }
{
    match place.level {
        Level::Own => Instr::StoreL(place.cell),
        Level::Around(frames) => Instr::StoreO(frames, place.cell),
        Level::Main => Instr::StoreG(place.cell),
    }
}

fn address_at(place: Where) -> Instr
    ensures { result ≡ scope.address_at place.level place.cell }
{
    match place.level {
        Level::Own => Instr::Local(place.cell),
        Level::Around(frames) => Instr::Outer(frames, place.cell),
        Level::Main => Instr::Global(place.cell),
    }
}

/// The instruction that gives the address of what is named: that of its cell, or what stands in that cell.
pub fn address_of(named: Named) -> Instr
    ensures { result ≡ scope.address_of named }
{
    if named.through {
        load_of(named.place)
    } else {
        address_at(named.place)
    }
}

/// The cell at a place, if it is one of the own frame.
pub fn own_where(found: Option<Where>) -> Option<u32>
    ensures { result ≡ spec.own_where found }
{
    match found {
        Some(
            Where {
                level: Level::Own,
                cell,
            },
        ) => Some(cell),
        Some(_) | None => None,
    }
}

/// The cell of what is named, if it is one of the own frame and no address stands in it.
pub fn own_named(found: Option<Named>) -> Option<u32>
    ensures { result ≡ spec.own_named found }
{
    match found {
        Some(named) => {
            if named.through {
                None
            } else {
                own_where(Some(named.place))
            }
        }
        None => None,
    }
}

/// The cell of the main frame at which what is named begins, if that is known.
pub fn main_named(found: Option<Named>) -> Option<u32>
    ensures { result ≡ spec.main_named found }
{
    match found {
        Some(named) => {
            if named.through {
                None
            } else {
                match named.place.level {
                    Level::Main => Some(named.place.cell),
                    Level::Own | Level::Around(_) => None,
                }
            }
        }
        None => None,
    }
}
