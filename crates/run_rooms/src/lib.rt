//! The law that the tables of a run's state can be long enough for a program. The function here has no body: its contract
//! is what is proved.
#![tactic(auto)]

ghost use Rattle.run_rooms.specs.Law.{RoomLaw};

/// For each program there is a number of slots with which no run by notes lacks one for an object that it elaborates (3.3.1,
/// 6.4.1), whatever the setting, the input and the notes are.
pub fn laws()
    ensures room { RoomLaw }
{}
