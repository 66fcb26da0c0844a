use ada_base::{Base, Op};
use ada_reduce::{combine, fold, reassociation_law};

#[test]
fn values_are_folded_from_the_left(rt: HostRuntime) {
    assert!(rt; fold(Op::Sub, Base::Narrow, 10, &[1, 2, 3]) == Some(4));
    assert!(rt; fold(Op::Max, Base::Wide, -7, &[-9, -8]) == Some(-7));
    assert!(rt; fold(Op::Add, Base::Narrow, 5, &[]) == Some(5));
}

// The sum leaves 32 bits at its second step, and comes back to them at the third.
#[test]
fn a_step_outside_the_base_range_is_none(rt: HostRuntime) {
    assert!(rt; fold(Op::Add, Base::Narrow, 1, &[2_147_483_646, 1, -5]) == None);
    assert!(rt; fold(Op::Add, Base::Wide, 1, &[2_147_483_646, 1, -5]) == Some(2_147_483_643));
}

#[test]
fn accumulators_are_combined_onto_the_first(rt: HostRuntime) {
    assert!(rt; combine(Op::Sub, Base::Narrow, 100, &[10, 3, 2]) == Some(5));
    assert!(rt; combine(Op::Add, Base::Narrow, 100, &[]) == Some(100));
    assert!(rt; combine(Op::Mul, Base::Narrow, 1, &[65_536, 32_768]) == None);
}

// A listed operator with its initial value: chunks of two and two, and of one and three, come to the one fold. With 5 in
// place of 0 each chunk brings it in.
#[test]
fn cuts_make_no_difference_to_a_listed_reduction(rt: HostRuntime) {
    reassociation_law();
    assert!(rt; fold(Op::Add, Base::Narrow, 0, &[3, 1, 2, 5]) == Some(11));
    assert!(rt; combine(Op::Add, Base::Narrow, 0, &[4, 7]) == Some(11));
    assert!(rt; combine(Op::Add, Base::Narrow, 0, &[3, 8]) == Some(11));
    assert!(rt; fold(Op::Add, Base::Narrow, 5, &[3, 1]) == Some(9));
    assert!(rt; fold(Op::Add, Base::Narrow, 5, &[2, 5]) == Some(12));
    assert!(rt; combine(Op::Add, Base::Narrow, 5, &[9, 12]) == Some(21));
}

// The sum of 255 and 200, 100 is 555, and 43 is left by 256; the greatest of 64 binary digits is kept as -1.
#[test]
fn numbers_of_modular_types_are_reduced(rt: HostRuntime) {
    assert!(rt; fold(Op::Add, Base::Modulo(8), 0, &[200, 100]) == Some(44));
    assert!(rt; fold(Op::Add, Base::Modulo(8), 255, &[200, 100]) == Some(43));
    assert!(rt; fold(Op::Add, Base::Modulo(64), 0, &[-1, -1, -1]) == Some(-3));
    assert!(rt; fold(Op::Max, Base::Modulo(64), 1, &[-1, 2]) == Some(-1));
    assert!(rt; fold(Op::Div, Base::Modulo(64), -1, &[2]) == Some(9_223_372_036_854_775_807));
    assert!(rt; fold(Op::Div, Base::Modulo(8), 5, &[1, 0]) == None);
    assert!(rt; combine(Op::Mul, Base::Modulo(8), 1, &[16, 16]) == Some(0));
    assert!(rt; combine(Op::Xor, Base::Modulo(8), 0, &[255, 15]) == Some(240));
}
