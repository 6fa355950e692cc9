//! The told line, as a run of the machine.

ghost use Rattle.gb_witness.specs.Played.{WatchedRunsArePlayed};

/// The law of the line. `WHOLE`, `LOCKED`, `STOPPED`: in the machine's run (`play`) over the events that the console answered there
/// is no fault. `FAULT`: over the events before the last one the machine's run has none, with the last one it has exactly the faults
/// that were seen, and the line names the lowest of them and where the run before it leaves the processor.
pub fn watched_runs_are_played()
    ensures { WatchedRunsArePlayed }
{}
