//! Numbers of exceptions' reasons.

ghost use Rattle.std.specs.Prelude.{◌≡◌};
ghost use Rattle.stack_code.specs.Listing.{reason_number};

use ada_base::Reason;

/// The number of an exception's reason, as an operand holds it.
pub fn reason_number(reason: Reason) -> u64
    ensures { result ≡ reason_number reason }
{
    match reason {
        Reason::ConstraintError => 0,
        Reason::ProgramError => 1,
        Reason::StorageError => 2,
        Reason::DataError => 3,
        Reason::EndError => 4,
        Reason::Declared(number) => 5 + u64::from(number),
    }
}
