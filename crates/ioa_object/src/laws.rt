//! What follows from the definitions alone. The function does nothing: what it says is in its contract.

ghost use Rattle.ioa_object.specs.Objects.{OneObject, OneProgram, NoneBeginsAnother};

/// A program has one object, an object is of one program, and none begins another.
pub fn objects_are_their_programs()
    ensures object { OneObject }
    ensures program { OneProgram }
    ensures apart { NoneBeginsAnother }
{}
