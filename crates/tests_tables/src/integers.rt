use ada_base::{Base, Items, Reason};
use ada_io::{GetEnd, Reader, append_image, append_padded, image, image_of, padded, truth_image};
use ada_port::MemSource;
use std::alloc::AllocError;

const DATA: GetEnd = GetEnd::Raise {
    reason: Reason::DataError,
};

const END: GetEnd = GetEnd::Raise {
    reason: Reason::EndError,
};

const FAULT: GetEnd = GetEnd::ReadFault;

const SPENT: GetEnd = GetEnd::Spent;

const MINUS_12: GetEnd = GetEnd::Number { value: -12 };

const SEVEN: GetEnd = GetEnd::Number { value: 7 };

const EIGHT: GetEnd = GetEnd::Number { value: 8 };

// The number of a call that is never made.
const NEVER: u64 = u64::MAX;

// The input, the call that fails, and of each Get the turns that it may take, what comes of it, and the turns that it
// took. More rows stand in proofs/GetRows.antt.
const GETS: &[(&str, u64, [(u64, GetEnd, u64); 3])] = &[
    (
        " -12 7x",
        NEVER,
        [(100, MINUS_12, 5), (100, SEVEN, 2), (100, DATA, 0)],
    ),
    ("7 8", 1, [(100, FAULT, 2), (100, EIGHT, 3), (100, END, 0)]),
    ("7 8", 3, [(100, SEVEN, 2), (100, FAULT, 2), (100, END, 1)]),
    // The end was met by the call before the one that fails, and isn't asked for again.
    ("7", 2, [(100, SEVEN, 2), (100, END, 0), (100, END, 0)]),
    (" 12", NEVER, [(3, SPENT, 3), (1, END, 1), (0, END, 0)]),
];

fn is_same(end: GetEnd, want: GetEnd) -> bool {
    match (end, want) {
        (GetEnd::Number { value }, GetEnd::Number { value: want }) => value == want,
        (GetEnd::Raise { reason }, GetEnd::Raise { reason: want }) => reason == want,
        (GetEnd::ReadFault, GetEnd::ReadFault) | (GetEnd::Spent, GetEnd::Spent) => true,
        _ => false,
    }
}

// Whether a Get that may take so many turns comes to that, and takes so many.
fn reads(
    reader: &mut Reader,
    source: &mut MemSource,
    (turns, want, took): (u64, GetEnd, u64),
) -> bool {
    let got = reader.get(source, turns);
    is_same(got.end, want) && got.took == took
}

#[test]
fn gets_of_one_input_answer_one_after_the_other(rt: HostRuntime) -> Result<(), AllocError> {
    let alloc = rt.alloc();
    for &(input, fail, gets) in GETS {
        let bytes = Vec::from_slice(alloc, input.as_bytes())?;
        let mut source = MemSource::new(bytes, Vec::from_slice(alloc, &[fail])?);
        let mut reader = Reader::new();
        for row in gets {
            assert!(rt; reads(&mut reader, &mut source, row), "{input}");
        }
    }
    Ok(())
}

#[test]
fn long_numbers_and_blanks_are_read(rt: HostRuntime) -> Result<(), AllocError> {
    let alloc = rt.alloc();
    for (byte, want) in [(b'9', DATA), (b' ', END)] {
        let bytes = vec![in alloc; byte; 1_000_000]?;
        let mut source = MemSource::new(bytes, Vec::new(alloc));
        let row = (3_000_000, want, 1_000_001);
        assert!(rt; reads(&mut Reader::new(), &mut source, row));
    }
    Ok(())
}

// The image of each number. More rows stand in proofs/ImageRows.antt.
const IMAGES: &[(i64, &str)] = &[
    (5, " 5"),
    (-3, "-3"),
    (2_147_483_647, " 2147483647"),
    (i64::MIN, "-9223372036854775808"),
];

// The image of what a cell of each base range keeps.
const KEPT: &[(Base, i64, &str)] = &[
    (Base::Narrow, -1, "-1"),
    (Base::Wide, -1, "-1"),
    (Base::Modulo(8), 255, " 255"),
    (Base::Modulo(64), 5, " 5"),
    (Base::Modulo(64), -1, " 18446744073709551615"),
    (Base::Modulo(64), i64::MIN, " 9223372036854775808"),
];

// A number in a field of so many places.
const FIELDS: &[(i64, u32, &str)] = &[(-7, 11, "         -7"), (42, 1, "42"), (-7, 4, "  -7")];

fn is(text: &Items<u8>, want: &str) -> bool {
    *text.as_slice() == *want.as_bytes()
}

#[test]
fn images_and_fields_are_made(rt: HostRuntime) -> Result<(), AllocError> {
    let alloc = rt.alloc();
    for &(value, want) in IMAGES {
        let text = image(alloc, value)?;
        assert!(rt; is(&text, want), "{want}");
    }
    for &(base, value, want) in KEPT {
        let text = image_of(alloc, base, value)?;
        assert!(rt; is(&text, want), "{want}");
    }
    for &(value, width, want) in FIELDS {
        let text = padded(alloc, value, width)?;
        assert!(rt; is(&text, want), "{want}");
    }
    Ok(())
}

#[test]
fn texts_are_appended(rt: HostRuntime) -> Result<(), AllocError> {
    let mut line = Items::new(rt.alloc());
    append_image(&mut line, 1)?;
    append_padded(&mut line, 2, 3)?;
    line.extend(truth_image(true))?;
    assert!(rt; is(&line, " 1  2TRUE"));
    Ok(())
}
