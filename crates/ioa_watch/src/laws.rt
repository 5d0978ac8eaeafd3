//! Laws of streams that are watched. The functions do nothing: what they say is in their contracts.

ghost use Rattle.std.specs.Prelude.{◌≡◌, List};
ghost use Rattle.ioa_value.specs.Actions.{Act};
ghost use Rattle.ioa_compile.specs.Programs.{Prog};
ghost use Rattle.ioa_compile.specs.Subjects.{RunsAs, Subject};
ghost use Rattle.ioa_watch.specs.AsMonitors.{RefusesAsMonitor};
ghost use Rattle.ioa_watch.specs.AsSubjects.{HearsAsProgram};
ghost use Rattle.ioa_watch.specs.Counted.{CountsOf};
ghost use Rattle.ioa_watch.specs.Names.{names_of};
ghost use Rattle.ioa_watch.specs.Watchers.{heard_by};

/// Where each action that has a name of a program's is one of its actions, it refuses what a monitor by it does not accept.
pub fn refused_as_monitored()
    ensures { (p : Prog) (acts : List Act) → RefusesAsMonitor p acts }
{}

/// What is counted is how many of the actions before the one that is refused have each name of the program's, and how many have none.
pub fn counted_by_names()
    ensures { (p : Prog) (acts : List Act) → CountsOf (names_of p.members) acts (heard_by p acts) }
{}

/// What a program refuses of a stream and counts of it, the source's components do, by the same names.
pub fn streams_are_the_subjects()
    ensures { (p : Prog) (s : Subject) (acts : List Act) → RunsAs p s → HearsAsProgram s p acts }
{}
