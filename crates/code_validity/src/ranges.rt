//! Whether a base range is one that code has.

ghost use Rattle.std.specs.Prelude.{◌↔◌, IsTrue};
ghost use Rattle.stack_code.specs.Valid.{AreDigits, FoldFits, IsRange};

use ada_base::Base;
use stack_code::SiteKind;

/// Whether a modular type may have so many binary digits.
pub(crate) fn are_digits(count: u8) -> bool
    ensures { IsTrue result ↔ AreDigits count }
{
    1 <= count && count <= 64
}

/// Whether a base range is one of a modular type with digits, or another one.
pub(crate) fn is_range(base: Base) -> bool
    ensures { IsTrue result ↔ IsRange base }
{
    match base {
        Base::Modulo(count) => are_digits(count),
        _ => true,
    }
}

/// Whether the operator by which a construct combines accumulators has such a base range.
pub(crate) fn fold_fits(kind: SiteKind) -> bool
    ensures { IsTrue result ↔ FoldFits kind }
{
    match kind {
        SiteKind::Reduction(Some(by)) | SiteKind::ChunkReduction(Some(by)) => is_range(by.base),
        _ => true,
    }
}
