//! The laws of the machine, which say what its definition in `specs/Machine.antt` comes to.

ghost use Rattle.stack_code.specs.Laws.{CutLaw, FrameLaw, LookLaw, StandingLaw, TopLaw};

/// Valid code never lacks an operand and never goes astray, and forward code ends.
pub fn standing_law()
    ensures { StandingLaw }
{}

/// A path that pauses before a look is one that is cut there when its looks are counted. A result for a reader: no other law
/// goes by it.
pub fn cut_law()
    ensures { CutLaw }
{}

/// A path that is lent some cells does the same on the whole memory, and leaves the other cells alone. A result for a reader:
/// machine_paths has its own law of views.
pub fn frame_law()
    ensures { FrameLaw }
{}

/// A call takes no cell off that was there before it.
pub fn top_law()
    ensures { TopLaw }
{}

/// A step whose looks are counted takes just the looks that it has, and comes to the same.
pub fn look_law()
    ensures { LookLaw }
{}
