//! Laws of steps and runs. The functions do nothing: what they say is in their contracts.

ghost use Rattle.ioa_system.specs.Likeness.{SameOwner, SameParticipants, SameExternal, SameRun, SameTrace, SameStart, SameStep, SameStepFrom};

/// A program's run is that of whatever it runs as: of the hosts that the composition simulates which it implements, of this composition,
/// and of its own table. Over every list of actions it performs as many, ends for the same reason, has the same trace, and reaches slots
/// that hold the states. Slot i holds the value of the i-th declared variable, and the last slot of a host that crashes whether it is up.
/// An action has the same owner and participants, and is external in both.
pub fn runs_are_the_subjects()
    ensures run { SameRun }
    ensures trace { SameTrace }
    ensures owner { SameOwner }
    ensures participants { SameParticipants }
    ensures external { SameExternal }
{}

/// A program's step is that of whatever it runs as: it starts in slots that hold the states in which this starts, and from slots that hold
/// its states it answers what this answers, with slots that hold the new states; so do the participants alone. The slots have their
/// declared types, and hold a state as those do that a run reaches.
pub fn steps_are_the_subjects()
    ensures start { SameStart }
    ensures step { SameStep }
    ensures step_from { SameStepFrom }
{}
