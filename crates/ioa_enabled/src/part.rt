//! Parts of what is told of what is enabled.

ghost use Rattle.std.specs.Prelude.{◌≡◌};
ghost use Rattle.ioa_enabled.specs.Told as spec;

/// Some of the lines that tell what is enabled.
#[derive(Clone, Copy)]
pub(crate) enum Part {
    /// All of them.
    All,
    /// Those that are not of inputs.
    Own,
    /// Those of entries of which an action is enabled.
    Enabled,
}

impl Part {
    /// Whether it has the lines of an entry, by whether none of the entry's actions is enabled that are tried.
    pub(crate) fn tells(self, none: bool) -> bool
        ensures { result ≡ spec.tells self none }
    {
        match self {
            Part::All | Part::Own => true,
            Part::Enabled => !none,
        }
    }
}
