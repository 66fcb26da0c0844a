//! Loops that are left.

ghost use Rattle.std.specs.Prelude.{◌≡◌};
ghost use Rattle.run_parts.specs.Caught.{caught};

use run_values::{End, Leave};

/// What is left of a loop that an exit of it leaves (5.7).
pub fn caught(number: u32, how: Result<(), End>) -> Result<(), End>
    ensures { result ≡ caught number how }
{
    match how {
        Ok(()) => Ok(()),
        Err(End::Left(Leave::Exits(other))) => {
            if number == other {
                Ok(())
            } else {
                Err(End::Left(Leave::Exits(other)))
            }
        }
        Err(end) => Err(end),
    }
}
