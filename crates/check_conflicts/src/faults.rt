//! How the rules on conflicts are broken (9.10.1).

/// How the rules on conflicts are broken.
/// - GlobalTouched: the strict rule is asked for and broken: the least token at which a parallel construct touches a
///   variable that is declared outside it, without its own parameter as an index; and the least number of such an object
///   there.
/// - Clash: the strict rule holds or isn't asked for, and two effects in different threads of a construct, one of them a
///   write, aren't separated: the least pair of their tokens, the lesser first.
/// - OutOfMemory: no memory could be had.
#[derive(Clone, Copy)]
pub enum ConflictFault {
    GlobalTouched { at: u32, object: u32 },
    Clash { at: u32, other: u32 },
    OutOfMemory,
}
