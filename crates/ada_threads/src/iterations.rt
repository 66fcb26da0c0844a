// The threads of a construct: which iterations each has, and what its frame begins with.
ghost use Rattle.std.specs.Prelude.{◌≡◌, ◌+◌, ◌<◌, ◌^◌, ◌+ℤ◌, pos, IfSome};
ghost use Rattle.ada_workers.specs.Threads.{frame_values};
ghost use Rattle.machine_paths.specs.Starting.{thread_values};
ghost use Rattle.ada_threads.specs.Shares.{share_of};

use ada_workers::Frame;
use stack_code::Asked;

/// Consecutive iterations of a construct, numbered from 0, and the number of the thread that does them.
#[derive(Clone, Copy)]
pub struct Iterations {
    /// The number of the thread, from 0.
    pub number: u32,
    /// The number of its first iteration.
    pub first: u64,
    /// How many iterations it has.
    pub size: u64,
}

// None where 64 bits don't hold it.
fn further(from: i64, by: u64) -> Option<i64>
    ensures { IfSome result (λ v. v ≡ from +ℤ pos by) }
{
    match i64::try_from(by) {
        Ok(by) => from.checked_add(by),
        Err(_) => None,
    }
}

/// The first values of a thread's own cells: its chunk value, the initial value of a reduction, and the first and the last of
/// its loop values or positions, or 1 and 0 where it has none; and so many more cells of 0. None where one of these numbers
/// isn't in 64 bits.
pub fn frame_of(frame: u32, asked: Asked, part: Iterations) -> Option<Frame>
    ensures values { IfSome result (λ f. frame_values f ≡ thread_values frame asked (share_of part)) }
    ensures fits { IfSome result (λ f. f.more + 4 < 2 ^ 32) }
{
    let chunk = further(asked.chunk, u64::from(part.number))?;
    let more = frame.saturating_sub(4);
    if part.size == 0 {
        return Some(Frame {
            chunk,
            initial: asked.initial,
            first: 1,
            last: 0,
            more,
        });
    }
    let first = further(asked.first, part.first)?;
    let last = further(first, part.size - 1)?;
    Some(Frame {
        chunk,
        initial: asked.initial,
        first,
        last,
        more,
    })
}
