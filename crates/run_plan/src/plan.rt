ghost use Rattle.std.specs.Prelude.{◌↔◌, IsTrue};
ghost use Rattle.run_plan.specs.Plans.{HasNoZero};

use ada_base::Items;

/// How a run divides the iterations of those constructs for which the text leaves it open. `cuts` asks for a plan with no
/// 0 in it.
#[derive(Drop)]
pub enum Plan {
    /// One chunk.
    One,
    /// So many chunks, as equal as can be, and no more than there are iterations.
    Even(u32),
    /// Chunks of so many iterations, of which the last one takes what is left.
    Sized(u32),
    /// Chunks of these sizes in order, as far as there are iterations, and one more for what is left.
    Listed(Items<u32>),
}

impl Plan {
    /// Whether each number in the plan is at least 1.
    pub fn has_no_zero(&self) -> bool
        ensures { IsTrue result ↔ HasNoZero self.now }
    {
        match self {
            Plan::One => true,
            Plan::Even(chunks) => *chunks > 0,
            Plan::Sized(size) => *size > 0,
            Plan::Listed(sizes) => !sizes.as_slice().contains(&0),
        }
    }
}

/// What a run is told beside its program. The type admits a 0; `command_words` gives none.
#[derive(Drop)]
pub struct Setting {
    /// How iterations are divided.
    pub plan: Plan,
    /// How many workers carry out the threads of a construct.
    pub workers: u32,
    /// How many turns a path may begin.
    pub turns: u64,
}

/// The sizes of chunks, in the order of the chunks.
#[derive(Drop)]
pub struct Cuts {
    /// How many iterations each chunk has.
    pub sizes: Items<u64>,
}
