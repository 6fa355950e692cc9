//! Watching, as runs of the machine.

ghost use Rattle.gb_watch.specs.Played.{FaultlessFramesArePlayed, FaultyFramesArePlayed, FaultlessRunsArePlayed, CutRunsArePlayed, FaultyRunsArePlayed};

/// The law of watching. A frame without a fault: in the machine's run (`play`) over the events that the console
/// answered there is none. A frame with one: over the events before it the machine's run has none, over these and the one that is
/// told it has exactly the faults that are told, and the number counts those before it. The same from the first of many frames on.
pub fn watched_frames_are_played()
    ensures faultless { FaultlessFramesArePlayed }
    ensures faulty { FaultyFramesArePlayed }
    ensures faultless_runs { FaultlessRunsArePlayed }
    ensures cut_runs { CutRunsArePlayed }
    ensures runs { FaultyRunsArePlayed }
{}
