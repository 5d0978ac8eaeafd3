//! The form of an explanation, and how it is printed.

use crate::topic::Topic;
use std::fmt;

/// What is said of a topic, in words for someone who writes a first protocol.
#[derive(Clone, Copy, Debug)]
pub struct Explanation {
    pub topic: Topic,
    pub meaning: &'static str,
    pub example: Example,
    /// What to do then.
    pub mending: &'static str,
}

/// What makes the program print it.
#[derive(Clone, Copy, Debug)]
pub enum Example {
    /// This source, whatever the list.
    Source(&'static str),
    /// This source with this list.
    Replay {
        source: &'static str,
        list: &'static str,
    },
    /// This source with this log.
    ReplayLog {
        source: &'static str,
        log: &'static str,
    },
    /// This source with this log, from which a run is to go on.
    Resume {
        source: &'static str,
        log: &'static str,
    },
    /// This source as a monitor of this log.
    Monitor {
        source: &'static str,
        log: &'static str,
    },
    /// These bytes as a file, each as two hexadecimal digits.
    Object(&'static str),
    /// No text that could stand here. The sentence says what does it.
    Told(&'static str),
}

impl fmt::Display for Example {
    ghost use Rattle.std.specs.Prelude.{Some};
    ghost use Rattle.ioa_request.specs.Explained.{example_text};

    ghost output = { λ example. Some (example_text example) };

    fn fmt<W: fmt::Write>(&self, f: &mut fmt::Formatter<W>) -> fmt::Result {
        match self {
            Example::Source(source) => write!(f, "For example, this source:\n\n{source}\n"),
            Example::Replay { source, list } => write!(
                f,
                "For example, this source:\n\n{source}\n\nwith this list:\n\n{list}\n"
            ),
            Example::ReplayLog { source, log } => write!(
                f,
                "For example, this source:\n\n{source}\n\nwith this log:\n\n{log}\n"
            ),
            Example::Resume { source, log } => write!(
                f,
                "For example, this source:\n\n{source}\n\nwith a run that goes on from this log:\n\n{log}\n"
            ),
            Example::Monitor { source, log } => write!(
                f,
                "For example, this source:\n\n{source}\n\nas a monitor of this log:\n\n{log}\n"
            ),
            Example::Object(digits) => write!(
                f,
                "For example, these bytes, in hexadecimal:\n\n{digits}\n"
            ),
            Example::Told(sentence) => write!(f, "{sentence}\n"),
        }
    }
}

impl fmt::Display for Explanation {
    ghost use Rattle.std.specs.Prelude.{Some};
    ghost use Rattle.ioa_request.specs.Explained.{explanation_text};

    ghost output = { λ explanation. Some (explanation_text explanation) };

    fn fmt<W: fmt::Write>(&self, f: &mut fmt::Formatter<W>) -> fmt::Result {
        let Explanation {
            topic,
            meaning,
            example,
            mending,
        } = self;
        write!(f, "{topic}: {meaning}\n\n{example}\n{mending}\n")
    }
}
