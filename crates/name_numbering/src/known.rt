//! The identifiers of the language (annex A), by their numbers.

ghost use Rattle.std.specs.Prelude.{◌≡◌, ◌<◌, Some, slice_get};
ghost use Rattle.name_rules.specs.Symbols.{known};

/// The identifier with a number, in lower case.
pub fn known_text(number: u32) -> &'static str
    requires { number < 34 }
    ensures { slice_get known number ≡ Some result.now }
{
    match number {
        0 => "boolean",
        1 => "true",
        2 => "false",
        3 => "integer",
        4 => "natural",
        5 => "positive",
        6 => "constraint_error",
        7 => "program_error",
        8 => "storage_error",
        9 => "ada",
        10 => "text_io",
        11 => "integer_text_io",
        12 => "put",
        13 => "put_line",
        14 => "new_line",
        15 => "get",
        16 => "data_error",
        17 => "end_error",
        18 => "first",
        19 => "last",
        20 => "length",
        21 => "image",
        22 => "max",
        23 => "min",
        24 => "succ",
        25 => "pred",
        26 => "reduce",
        27 => "parallel_reduce",
        28 => "width",
        29 => "conflict_check_policy",
        30 => "all_parallel_conflict_checks",
        31 => "all_conflict_checks",
        32 => "known_parallel_conflict_checks",
        _ => "nonblocking",
    }
}
