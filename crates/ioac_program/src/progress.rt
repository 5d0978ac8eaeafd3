//! How far runs by many seeds are, shown on a terminal while they go on.

use std::io;
use std::io::Write;

/// What empties the line of a terminal.
const EMPTIED: &str = "\r\x1b[K";

/// A writer of a line for each seed that shows on a terminal, where it has one, how many it has taken.
#[derive(Drop)]
pub struct Metered<W, T> {
    inner: W,
    terminal: Option<T>,
    lines: u64,
}

impl<W: Write, T: Write> Metered<W, T> {
    ghost use Rattle.std.specs.Prelude.{◌≡◌};

    /// A writer that has taken no line.
    pub fn new(inner: W, terminal: Option<T>) -> Metered<W, T> {
        Metered {
            inner,
            terminal,
            lines: 0,
        }
    }

    /// Shows how many seeds were told once this piece is taken. That the terminal takes none of it is no failure.
    fn show(&mut self, piece: &[u8])
        ensures { self.new.inner ≡ self.old.inner }
    {
        if let Some(terminal) = &mut self.terminal {
            let lines = self.lines.saturating_add(ends_in(piece));
            self.lines = lines;
            let _ = write!(terminal, "{EMPTIED}{lines} seeds");
        }
    }
}

/// How many lines end in this piece.
fn ends_in(piece: &[u8]) -> u64 {
    let mut ends: u64 = 0;
    for byte in piece {
        if *byte == b'\n' {
            ends = ends.saturating_add(1);
        }
    }
    ends
}

impl<W: Write, T: Write> Write for Metered<W, T> {
    ghost contents = { λ m. W.contents m.inner };

    fn write(&mut self, buf: &[u8]) -> io::Result<usize> {
        let taken = self.inner.write(buf)?;
        self.show(&buf[..taken]);
        Ok(taken)
    }

    fn flush(&mut self) -> io::Result<()> {
        self.inner.flush()
    }
}

/// A writer onto a terminal that empties the line there before it writes, once.
#[derive(Drop)]
pub struct Emptying<W> {
    inner: W,
    empties: bool,
}

impl<W: Write> Emptying<W> {
    /// A writer that does so, or one that writes alone.
    pub fn new(inner: W, empties: bool) -> Emptying<W> {
        Emptying { inner, empties }
    }

    /// Empties the line, if it has not been yet. That the terminal does not is no failure.
    pub fn empty(&mut self) {
        if self.empties {
            self.empties = false;
            let _ = self.inner.write(EMPTIED.as_bytes());
        }
    }
}

impl<W: Write> Write for Emptying<W> {
    fn write(&mut self, buf: &[u8]) -> io::Result<usize> {
        self.empty();
        self.inner.write(buf)
    }

    fn flush(&mut self) -> io::Result<()> {
        self.inner.flush()
    }
}
