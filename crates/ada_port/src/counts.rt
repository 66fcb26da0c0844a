// Counts of calls and of faults.
ghost use Rattle.std.specs.Prelude.{◌≡◌};
ghost use Rattle.ada_port.specs.Counts.{next_count};

// One more, but no more than a u64 can be.
pub(crate) fn raise(count: u64) -> u64
    ensures { result ≡ next_count count }
{
    count.saturating_add(1)
}
