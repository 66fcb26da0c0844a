use ada_base::{Base, Op, apply, is_in_base};

const LEAST: i64 = -9_223_372_036_854_775_808;

const GREATEST: i64 = 9_223_372_036_854_775_807;

// The powers that no equation computes; the other rows stand in proofs/OperationRows.antt.
const POWERS: &[(Base, i64, i64, Option<i64>)] = &[
    (Base::Wide, -2, 63, Some(LEAST)),
    (Base::Wide, 2, 64, None),
    (Base::Wide, -2, GREATEST, None),
    (Base::Wide, 0, GREATEST, Some(0)),
    (Base::Wide, 1, GREATEST, Some(1)),
    (Base::Wide, -1, GREATEST, Some(-1)),
    (Base::Wide, -1, GREATEST - 1, Some(1)),
    (Base::Narrow, 10, 2_147_483_647, None),
    (Base::Narrow, -1, 2_147_483_647, Some(-1)),
];

#[test]
fn powers_with_great_exponents(rt: HostRuntime) {
    for &(base, a, b, want) in POWERS {
        assert!(rt; is_in_base(base, a) && is_in_base(base, b), "{a} ** {b}");
        assert!(rt; apply(Op::Pow, base, a, b) == want, "{a} ** {b}");
    }
}
