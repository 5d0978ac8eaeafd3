//! What follows from the definitions alone. The functions do nothing: what they say is in their contracts.

ghost use Rattle.std.specs.Prelude.{List};
ghost use Rattle.ioa_value.specs.Actions.{Act};
ghost use Rattle.ioa_compile.specs.Programs.{Prog};
ghost use Rattle.ioa_serving.specs.Carried.{ChartsAsSource, GraphsAsSource, HistoriesAsSource, LogsListsAsSource, LogsLogsAsSource, MonitorsAsSource, OneComposition, RefusesAsSource, ReplaysAsSource, ReplaysLogsAsSource, RunsAsSource, TakesTurnsAsSource};
ghost use Rattle.ioa_serving.specs.Cuts.{CutsLists, CutsLogs, KeepsShortLogs};
ghost use Rattle.ioa_serving.specs.Delivering.{HistoriesDeliver, ObjectsDeliver};
ghost use Rattle.ioa_serving.specs.Objects.{ObjectsTellActions};
ghost use Rattle.ioa_serving.specs.RunReports.{SilenceMeans};
ghost use Rattle.ioa_serving.specs.Strict.{AgreesWithMonitor};

/// From the bytes of an object to the trace: the program that is read of an object is the one that was compiled, so what is written by an
/// object that was compiled of a source is what the source's hosts do. So it is of each list, of each log, of the log of a list's run, of a log that is
/// written again, of the chart of a log, of the graph, and of a monitor's answer.
pub fn objects_do_as_their_sources()
    ensures lists { ReplaysAsSource }
    ensures logs { ReplaysLogsAsSource }
    ensures list_logs { LogsListsAsSource }
    ensures log_logs { LogsLogsAsSource }
    ensures charts { ChartsAsSource }
    ensures graphs { GraphsAsSource }
    ensures monitors { MonitorsAsSource }
{}

/// What is taken of a list up to an action has the list's first actions. What is taken of a log has its first entries, and is done after them; of a log
/// that has fewer it is the log.
pub fn cuts_are_beginnings()
    ensures lists { CutsLists }
    ensures logs { CutsLogs }
    ensures short { KeepsShortLogs }
{}

/// In every history of the compiled form of Stenning's protocol, by its source or by an object, whatever the schedule, the words and the script,
/// with channels that lose, duplicate and reorder and hosts that crash and recover, the delivered messages are a beginning of the sent ones. A history is
/// whatever a run leads to, or any number of runs of which each goes on from the log of the one before. Nothing is said of whether a message is delivered.
pub fn stenning_delivers()
    ensures histories { HistoriesDeliver }
    ensures objects { ObjectsDeliver }
{}

/// A text declares one composition of each name: its hosts, with their automata, arguments and start values.
pub fn one_composition()
    ensures { OneComposition }
{}

/// Runs by an object that was compiled of a source are those of the source's composition: the same histories, with the same fault, and in slots
/// that hold the hosts' states; the same logs, ends, reports and texts of these, also where memory is refused to a worker; and on one thread, by
/// the same words, the same turns. So it is from whatever log they go on; and the logs from which the one does not go on the other refuses alike.
pub fn objects_run_as_their_sources()
    ensures histories { HistoriesAsSource }
    ensures runs { RunsAsSource }
    ensures turns { TakesTurnsAsSource }
    ensures refusals { RefusesAsSource }
{}

/// Where of no worker it is told that memory was refused to it, it was refused to none; so where no fault ends the run each worker has had
/// all its turns. And where it was refused to none, of none it is told.
pub fn silent_runs_lack_no_memory()
    ensures { SilenceMeans }
{}

/// A monitor that is asked strictly answers what a monitor does, where each action that has a name of the specification's is one of its actions, and one has
/// such a name.
pub fn strict_answers_agree()
    ensures { (p : Prog) (acts : List Act) → AgreesWithMonitor p acts }
{}

/// A replay that is told in JSON objects tells what its text does: an object for each action of the trace, with the action as it is written, and then one with the
/// end.
pub fn objects_tell_actions()
    ensures { ObjectsTellActions }
{}
