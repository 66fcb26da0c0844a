//! What words ask for.

use run_plan::Setting;
use std::alloc::AllocError;
use thiserror::Error;

/// What is to be done with a text.
#[derive(Clone, Copy, Debug, PartialEq, Eq)]
pub enum Mode {
    /// It is compiled.
    Check,
    /// It is compiled and run.
    Run,
    /// It is compiled, and its code is listed.
    List,
    /// The stated text of so many statements is compiled and run, and what that took is told.
    Soak(u32),
}

/// What right words ask for.
#[derive(Drop)]
pub struct Request<'a> {
    /// What is to be done.
    pub mode: Mode,
    /// The name of the text, which in a soak is stated and not fetched.
    pub file: &'a str,
    /// The plan, the number of workers and the limit of turns.
    pub setting: Setting,
    /// Whether the variables are written after the run.
    pub vars: bool,
}

/// Why words were not read.
#[derive(Clone, Copy, Debug, PartialEq, Eq, Error)]
pub enum WordsFault {
    #[error("the words are wrong")]
    Usage,
    #[error("out of memory")]
    OutOfMemory,
}

impl From<AllocError> for WordsFault {
    ghost use Rattle.std.specs.Prelude.{◌≡◌};
    ghost use Rattle.command_words.specs.declared.request.WordsFault.TheVariants.{OutOfMemory};

    ghost from_gives = { λ _ fault. fault ≡ OutOfMemory };

    fn from(_: AllocError) -> WordsFault {
        WordsFault::OutOfMemory
    }
}
