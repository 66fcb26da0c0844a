//! The kinds of tokens that the language leaves out (2.2).

ghost use Rattle.std.specs.Prelude.{◌≡◌};
ghost use Rattle.ada_base.specs.Kinds.{left_out};
ghost use Rattle.ada_base.specs.Symbols.{is_member};
ghost use Rattle.syntax_tree.specs.Parsed.{is_left_out};

use ada_base::kinds::{
    ABORT, ABSTRACT, ACCEPT, ACCESS, ALIASED, ALL, AT, BODY, BOX, CHARACTER, CLOSE_LABEL, DELAY,
    DELTA, DIGITS, ENTRY, GENERIC, GOTO, INTERFACE, LIMITED, NEW, OPEN_LABEL, OVERRIDING, PACKAGE,
    PRIVATE, PROTECTED, REAL, RENAMES, REQUEUE, SELECT, SEPARATE, SOME, SYNCHRONIZED, TAGGED, TASK,
    TERMINATE, UNTIL,
};
use ada_base::{Kind, kind_number};

/// Whether a token is a word, a mark or a literal that the language leaves out.
pub fn is_left_out(kind: Kind) -> bool
    ensures { result ≡ is_left_out kind }
{
    is_among(&LEFT_OUT, kind_number(kind))
}

fn is_among(kinds: &[u16], kind: u16) -> bool
    ensures { result ≡ is_member kinds.now kind }
{
    kinds.iter().any(|k| *k == kind)
}

/// The tokens that the language leaves out: words, marks, and real and character literals.
pub const LEFT_OUT: [u16; 36] = [
    ABORT,
    ABSTRACT,
    ACCEPT,
    ACCESS,
    ALIASED,
    ALL,
    AT,
    BODY,
    DELAY,
    DELTA,
    DIGITS,
    ENTRY,
    GENERIC,
    GOTO,
    INTERFACE,
    LIMITED,
    NEW,
    OVERRIDING,
    PACKAGE,
    PRIVATE,
    PROTECTED,
    RENAMES,
    REQUEUE,
    SELECT,
    SEPARATE,
    SOME,
    SYNCHRONIZED,
    TAGGED,
    TASK,
    TERMINATE,
    UNTIL,
    BOX,
    OPEN_LABEL,
    CLOSE_LABEL,
    REAL,
    CHARACTER,
];
