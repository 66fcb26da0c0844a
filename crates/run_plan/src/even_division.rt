ghost use Rattle.std.specs.Prelude.{◌≡◌, ◌+◌, ◌<◌, ◌≤◌};
ghost use Rattle.run_plan.specs.Even.{even_of};

/// Consecutive iterations, numbered from 0.
#[derive(Clone, Copy)]
pub struct Range {
    /// The number of the first one.
    pub first: u64,
    /// How many there are.
    pub len: u64,
}

/// The iterations of part number `i` where `n` are divided into `k` parts that are as equal as can be, the
/// greater ones first (5.5). A part is empty where there are fewer iterations than parts. Each part begins
/// where the one before ends, and the last one ends at `n`. It takes no memory.
pub fn even(n: u64, k: u32, i: u32) -> Range
    requires { i < k }
    ensures is { result ≡ even_of n k i }
    ensures meets { (even_of n k (i + 1)).first ≡ result.first + result.len }
    ensures within { result.first + result.len ≤ n }
    ensures ends { i + 1 ≡ k → result.first + result.len ≡ n }
{
    let k = u64::from(k);
    let i = u64::from(i);
    let least = n / k;
    let more = n % k;
    let len = if i < more { least + 1 } else { least };
    Range {
        first: least * i + more.min(i),
        len,
    }
}
