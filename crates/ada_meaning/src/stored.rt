//! The stored run: a program's run in order under a plan, over a state that code can hold; and what is said of it.

ghost use Rattle.ada_meaning.specs.StoredLaw.{StoredLaw, NotedLaw, StoppedLaw, NotedStoppedLaw, PlainLaw, DoneLaw, JournalLaw, SomeLaw, StoredSequentialLaw};
ghost use Rattle.ada_meaning.specs.Touched.{FrameLaw, ApartLaw, JoinLaw, ViewLaw};
ghost use Rattle.ada_meaning.specs.StoredRows.{StoredRows, NotedRows, ChosenRows, CutRows, DeedsRow, TeamsRow, FaultRow, WriteFaultRow, Soaks};

/// Laws of all programs that keep the rule on blocking calls.
/// - stored: what a stored run comes to is permitted, whether it ends by itself or by a fault of input, output or memory;
///   the output that was there before is followed by what it put out.
/// - noted: the same of a run by notes, whatever they say.
/// - stopped, noted_stopped: what such a run, or one by notes, has asked for and put out at any point is what a permitted
///   run had that was stopped there, for want of memory or by a fault of input or output.
/// - frame: a cell that was there before statements, and that they don't write by what they are said to touch, keeps its value.
/// - apart: where a program has no races, no two threads of a construct that its run by notes comes to share a cell that was
///   there before and that one of them writes, by what they are said to touch.
/// - join: the threads of a construct that a run by notes comes to go on one from the other, and each leaves objects and
///   cells as they were, but for those that it writes by what it is said to touch.
/// - view: where a program has no races, each cell that was there and that a thread touches is, where the thread begins, as
///   it was before the construct, and each that it writes is behind the construct as it left it.
/// - plain: with notes in order and no bound of looks a run by notes is the stored run.
/// - done: where a run by notes keeps what it does outside, it keeps all of that, in order.
/// - journal: what a run by notes comes to that ends by itself and uses each of them is permitted with more workers than one.
/// - some: so is what it comes to where nothing fails.
/// - stored_sequential: where the sequential run is calm, a stored run that ends by itself comes to the same.
pub fn laws()
    ensures stored { StoredLaw }
    ensures noted { NotedLaw }
    ensures stopped { StoppedLaw }
    ensures noted_stopped { NotedStoppedLaw }
    ensures frame { FrameLaw }
    ensures apart { ApartLaw }
    ensures join { JoinLaw }
    ensures view { ViewLaw }
    ensures plain { PlainLaw }
    ensures done { DoneLaw }
    ensures journal { JournalLaw }
    ensures some { SomeLaw }
    ensures stored_sequential { StoredSequentialLaw }
{}

/// The stored runs of programs written by hand come to what is said of them in `specs/StoredRows.antt`, faults of a source
/// and of a sink among them.
pub fn rows()
    ensures stored { StoredRows }
    ensures noted { NotedRows }
    ensures chosen { ChosenRows }
    ensures cut { CutRows }
    ensures deeds { DeedsRow }
    ensures teams { TeamsRow }
    ensures fault { FaultRow }
    ensures write_fault { WriteFaultRow }
    ensures soaks { Soaks }
{}
