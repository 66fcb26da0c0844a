//! What follows an instruction.

/// What may follow an instruction in its body: the next one, another, either of the two, or none.
#[derive(Clone, Copy)]
pub enum Flow {
    /// The next one follows.
    On,
    /// That one follows.
    To(u32),
    /// That one follows, or the next.
    Branch(u32),
    /// That one follows once the call has ended.
    Back(u32),
    /// That one follows where it begins another round, or the next.
    Round(u32),
    /// None does.
    Ends,
}
