//! What programs mean: the definitions of their runs (chapters 3 to 6, 9 and 11), and the laws of these definitions.
//! The functions of this module and of `stored` have no body: their contracts are what is proved. `stored` has the laws of
//! a run over a state that code can hold.
#![tactic(auto)]

ghost use Rattle.ada_meaning.specs.Blocked.{BlockedLaw};
ghost use Rattle.ada_meaning.specs.Shapes.{ShapeLaw, SizeLaw};
ghost use Rattle.typed_tree.specs.Programs.{program};
ghost use Rattle.ada_meaning.specs.Deeds.{PrefixLaw};
ghost use Rattle.ada_meaning.specs.Law.{StopsLaw, AloneLaw, AtOnceLaw, SilentLaw, ComesToSequential, OnlyLaw, OneLaw, SequentialLaw, OneSequentialLaw, OperatorLaw, SubtypeLaw, MoreWorkersLaw};
ghost use Rattle.ada_meaning.specs.Rows.{Adds, Overflows, Divisions, Reductions, Dealt, Find, Raised, Gotten, Turns, Doubled, Kept, Left, Passed, Padded', PartialOverflow, NoChunks, Filtered, Spends, Nested, Escapes, Calm, Sums};
ghost use Rattle.ada_meaning.specs.LoopRows.{Cuts, Hundred, Arms, Squares, Multiplies, Bounded, Joined, Cases, Columns, Shifts, PlannedAdds, AllRaise, Filled};
ghost use Rattle.ada_meaning.specs.BlockedRows.{BlockedRows};
ghost use Rattle.ada_meaning.specs.LookRows.{LookRows};
ghost use Rattle.ada_meaning.specs.CallRows.{Downs, Begins, NotCopied, NoReturn, Reraised, Elaborated, Combines};

pub mod slots;
pub mod stored;

pub use behaviours::shuffle_law;
pub use slots::{Slot, Variable};
use typed_tree::Typed;

/// How many threads a parallel construct has where no number is asked for (5.5, 5.6.1).
pub const MOST_THREADS: u32 = 4096;

/// Laws of all programs.
/// - stops: a program may be stopped before it begins.
/// - fronts: wherever the trace of a run is parted, there is a run that was stopped there.
/// - alone, at_once: with one worker no two threads run at once; what has no races has none between threads that do.
/// - silent: where the rule on blocking calls (9.5) is kept no thread of a construct takes input or puts output.
/// - only, one: permitted runs that end by themselves come to one thing, where one of them left no construct early and
///   the program has no races, or where there is one worker.
/// - more_workers: a run that is permitted with one worker is permitted with any number of them.
/// - sequential, one_sequential: where the sequential run is calm, that is what it comes to; and where it is stopped, what it
///   put out is a prefix of the sequential run's output.
/// - operators: for operands of its type an operator has the result of the operation on the base range (4.5).
/// - subtypes: runs whose reads give values of the cells' subtypes (3.2.2) are among the runs.
/// - blocked: the rule on blocking calls is kept exactly where no call breaks it.
/// - shapes, sizes: the shape of a subtype is that of its entry, with as many cells as it has in memory and in the
///   layout of typed programs (3.6, 3.8).
pub fn laws()
    ensures stops { StopsLaw }
    ensures fronts { PrefixLaw }
    ensures alone { AloneLaw }
    ensures at_once { AtOnceLaw }
    ensures silent { SilentLaw }
    ensures only { OnlyLaw }
    ensures one { OneLaw }
    ensures more_workers { MoreWorkersLaw }
    ensures sequential { SequentialLaw }
    ensures one_sequential { OneSequentialLaw }
    ensures operators { OperatorLaw }
    ensures subtypes { SubtypeLaw }
    ensures blocked { BlockedLaw }
    ensures shapes { ShapeLaw }
    ensures sizes { SizeLaw }
{}

/// A typed program that keeps the rule on blocking calls, has no races and whose sequential run is calm comes to what that
/// run comes to, for every input, every plan of numbers of at least 1, and any number of workers. Where it is stopped, what
/// it put out is a prefix of that run's output.
pub fn seq_law(typed: &Typed)
    ensures { ComesToSequential (program typed.now) }
{}

/// Programs written by hand come to what is said of them: each with its text in Ada in `specs/Rows.antt`.
pub fn rows()
    ensures adds { Adds }
    ensures overflows { Overflows }
    ensures divisions { Divisions }
    ensures reductions { Reductions }
    ensures dealt { Dealt }
    ensures find { Find }
    ensures raised { Raised }
    ensures gotten { Gotten }
    ensures turns { Turns }
    ensures doubled { Doubled }
    ensures kept { Kept }
    ensures left { Left }
    ensures passed { Passed }
    ensures padded { Padded' }
    ensures partial_overflow { PartialOverflow }
    ensures no_chunks { NoChunks }
    ensures filtered { Filtered }
    ensures spends { Spends }
    ensures nested { Nested }
    ensures escapes { Escapes }
    ensures calm { Calm }
    ensures sums { Sums }
{}

/// Programs with loops, parallel constructs (5.5, 5.6.1), reductions (4.5.10), arrays and records come to what is said of
/// them in `specs/LoopRows.antt`; and chunks have the sizes that are said there.
pub fn loop_rows()
    ensures cuts { Cuts }
    ensures hundred { Hundred }
    ensures arms { Arms }
    ensures squares { Squares }
    ensures multiplies { Multiplies }
    ensures bounded { Bounded }
    ensures joined { Joined }
    ensures cases { Cases }
    ensures columns { Columns }
    ensures shifts { Shifts }
    ensures planned_adds { PlannedAdds }
    ensures all_raise { AllRaise }
    ensures filled { Filled }
{}

/// Programs with calls, copying (6.4.1) and exceptions (11.4) come to what is said of them in `specs/CallRows.antt`.
pub fn call_rows()
    ensures downs { Downs }
    ensures begins { Begins }
    ensures not_copied { NotCopied }
    ensures no_return { NoReturn }
    ensures reraised { Reraised }
    ensures elaborated { Elaborated }
    ensures combines { Combines }
{}

/// Programs break the rule on nonblocking text (9.5) by the calls that are said of them in `specs/BlockedRows.antt`, and by
/// no others.
pub fn blocked_rows()
    ensures { BlockedRows }
{}

/// Programs do, event by event, what is said of them in `specs/LookRows.antt`: where a cancel is looked for, and what a Get
/// does.
pub fn look_rows()
    ensures { LookRows }
{}
