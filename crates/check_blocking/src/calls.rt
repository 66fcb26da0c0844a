//! How the rule on nonblocking text is broken (9.5).

/// How the rule on nonblocking text is broken.
#[derive(Clone, Copy)]
pub enum Blocked {
    /// The first call that breaks it: the first token of the called name or of the reducer, and the last identifier of
    /// that name.
    Call { at: u32, callee: u32 },
}
