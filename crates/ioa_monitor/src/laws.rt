//! The law of monitors. The function does nothing: what it says is in its contract. It is said of any components that have a subject's states:
//! hosts', a composition's or a table's.

ghost use Rattle.std.specs.Prelude.{List};
ghost use Rattle.ioa_tree.specs.Components.{Component};
ghost use Rattle.ioa_monitor.specs.Accepting.{AcceptsRuns, TellsRuns};
ghost use Rattle.ioa_compile.specs.Subjects.{State, Subject};

/// The actions that a monitor accepts are those of which the run performs all that its components have; of others it tells why this
/// run ends, by the action's index in the whole list.
pub fn monitored_is_the_run()
    ensures accepts { (s : Subject) (ps : List (Component (State s))) (ss : List (State s)) → AcceptsRuns ps ss }
    ensures tells { (s : Subject) (ps : List (Component (State s))) (ss : List (State s)) → TellsRuns ps ss }
{}
