//! What texts touch (9.10.1): effects of the threads of parallel constructs, conflicts, and the laws that rest on them.
//! Every function here has no body: its contract is what is proved.
#![tactic(auto)]

ghost use Rattle.check_effects.specs.Accepted.{AcceptLaw};
ghost use Rattle.check_effects.specs.Clipped.{ClipLaw};
ghost use Rattle.check_effects.specs.Conflicts.{RaceFreeLaw, GrantLaw, ClashLaw};
ghost use Rattle.check_effects.specs.Covered.{CoveredLaw, ShareLaw};
ghost use Rattle.check_effects.specs.Touching.{TouchLaw};
ghost use Rattle.check_effects.specs.Backwards.{FormedLaw, BackwardsLaw};
ghost use Rattle.check_effects.specs.EffectRows.{FormedRow, FreeRow, AcceptedRow};
ghost use Rattle.check_effects.specs.ClashRows.{ClashRows, TouchedRows};
ghost use Rattle.check_effects.specs.DisjointRows.{DisjointRows, ChunksAccepted, OneClash};

/// Laws of all programs.
/// - accepted: a program that is formed, has no blocked call and no clash has no races, and cells can be granted to its
///   threads; race_free says the same with less known of it.
/// - granted: no cell that one thread of a construct may write lies under an effect of another.
/// - clashes: the effects of a construct are disjoint exactly where no two of them clash.
/// - covered: in every run, consistent or not, each cell that a thread touches was made in it or lies under an effect of
///   its text, a write under a write; the items of a construct over an array are the components of the array that is named.
/// - touching: what the threads of a stored run by notes touch, of the cells that were there before their construct, lies
///   under an effect of their texts, by what the construct's parameters are, a write under a write.
/// - shares: no cell that one thread of a construct may write in any of its iterations lies under what another one
///   touches in any of its own.
/// - clipped: the indexes inside an array's bounds that iterations reach by a parameter and a distance are one run.
/// - formed: where names and calls are formed, names follow the layout of their objects and calls go backwards.
/// - backwards: then what a subprogram reaches stands in its text or is reached from an earlier one that it calls.
pub fn laws()
    ensures accepted { AcceptLaw }
    ensures race_free { RaceFreeLaw }
    ensures granted { GrantLaw }
    ensures clashes { ClashLaw }
    ensures covered { CoveredLaw }
    ensures touching { TouchLaw }
    ensures shares { ShareLaw }
    ensures clipped { ClipLaw }
    ensures formed { FormedLaw }
    ensures backwards { BackwardsLaw }
{}

/// Programs written by hand are formed, free of races and accepted, or have the clashes and break the strict rule at the
/// tokens that are said of them in `specs/EffectRows.antt` and `specs/ClashRows.antt`.
pub fn rows()
    ensures formed { FormedRow }
    ensures free { FreeRow }
    ensures accepted { AcceptedRow }
    ensures clashes { ClashRows }
    ensures touched { TouchedRows }
    ensures disjoint { DisjointRows }
    ensures chunks_accepted { ChunksAccepted }
    ensures one_clash { OneClash }
{}
