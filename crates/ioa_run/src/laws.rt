//! Laws of schedules. The functions do nothing: what they say is in their contracts.

ghost use Rattle.ioa_run.specs.Attempts.{AttemptsAnswer};
ghost use Rattle.ioa_run.specs.Played.{AlonePlays, NeverStale};
ghost use Rattle.ioa_run.specs.ProgramSchedules.{CopyAnswers};
ghost use Rattle.ioa_run.specs.Schedules.{OnePlay};
ghost use Rattle.ioa_run.specs.Resuming.{CountsSince, LogsAreRefused, LogsResume, NothingResumes, PlaysGoOn};
ghost use Rattle.ioa_run.specs.Subjects.{HostsApart, ProgramHistory, ProgramSchedule, SameAlone, SameCopy, SameEvents, SameOutcome, SameResumption, SameTurns, SubjectHistory, SubjectSchedule};

/// The schedule machine answers events in one way, and they lead to one schedule.
pub fn one_play()
    ensures { OnePlay }
{}

/// A turn's attempt is what the schedule machine answers to a copy and, where that is planned, to the commit at once after it.
pub fn attempts_answer()
    ensures { AttemptsAnswer }
{}

/// Planning an action by a copy of its participants' states (`Board::copy`, `Plan::make`) is the schedule machine's copy at the moment at which they
/// are copied: the answer is the same, and the worker then has that plan or none. So it is for whatever the program runs as, whose states the slots
/// hold.
pub fn copies_answer()
    ensures program { CopyAnswers }
    ensures subject { SameCopy }
{}

/// The whole run on one thread, of a program's table, of a composition or of hosts, since whatever log is resumed, is a play of the schedule machine:
/// in each turn in which a worker means to do something it copies and, where it can plan the action, commits at once. The machine answers each event
/// so, no plan is stale, and what then stands is the run's, with no plan left. A program's run plays the same events with the same answers as that of
/// whatever it runs as. A run that goes on from nothing is one since the log of nothing (`logs_resume`).
pub fn runs_alone_are_plays()
    ensures plays { AlonePlays }
    ensures stale { NeverStale }
    ensures events { SameEvents }
{}

/// A program's run on one thread is that of whatever it runs as: each host, or component, takes its turns by its own entries, state and words, and the
/// environment by the script. Both have the same history, fault, reports and words left, and the program's slots hold the states that are reached. So
/// a run's log and reports are those of the hosts' run. So it is since whatever log both resume, that of nothing among them.
pub fn turns_are_the_subjects()
    ensures turns { SameTurns }
    ensures outcome { SameAlone }
{}

/// What workers of a program did, in whichever order, those of whatever it runs as may do: its history is legal for them, with the same workers and
/// the same fault, and the slots hold the states to which it leads them; and what is legal for them is legal for the program. So of the log, the
/// states and the reports that any run gives, whatever was done before it.
pub fn histories_are_the_subjects()
    ensures history { SubjectHistory }
    ensures back { ProgramHistory }
    ensures outcome { SameOutcome }
{}

/// Since whatever log is resumed, that of nothing among them, the schedule machine answers every list of events of a program's workers as it answers
/// those of whatever it runs as, also where a plan is stale.
/// The variables of each component have names of their own, as those of a well formed source have.
pub fn schedules_are_the_subjects()
    ensures answers { SubjectSchedule }
    ensures back { ProgramSchedule }
    ensures apart { HostsApart }
{}

/// Just the logs of legal histories are resumed whose end is the number of their entries, at the states to which they lead. Of those that end as logs do
/// the others are refused: where a fault ends the log by that, else by its first entry whose worker is not its action's or whose action is not
/// performed, else by the count of its end. The log of nothing leads to the start. A program and whatever it runs as resume the same logs, with the same
/// histories, and refuse the others alike. Whatever workers then do, in whichever order, the history is legal and begins with the log's. So often as a
/// worker acts in a history, less so often as it did in what was done before, it acts in what is new.
pub fn logs_resume()
    ensures resumed { LogsResume }
    ensures refused { LogsAreRefused }
    ensures nothing { NothingResumes }
    ensures subjects { SameResumption }
    ensures plays { PlaysGoOn }
    ensures counted { CountsSince }
{}
