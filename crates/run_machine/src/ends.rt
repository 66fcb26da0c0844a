use ada_base::Reason;

/// How a run of the machine ended: normally; by an exception that no handler took; at the limit of its turns; or before its
/// end, because the input or the output failed or memory ran out.
#[derive(Clone, Copy)]
pub enum How {
    Ended,
    Raised(Reason),
    TurnsSpent,
    ReadFault,
    WriteFault,
    NoMemory,
}
