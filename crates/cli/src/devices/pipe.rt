//! An output whose reader may leave, as `head` does, and an error stream that stays silent then.
ghost use Rattle.std.specs.Prelude.{◌≡◌};

use std::cell::Cell;
use std::io;
use std::io::{ErrorKind, Write};

/// A writer that takes note if a write fails because the reader has left.
#[derive(Drop)]
pub struct Noting<'a, W> {
    writer: W,
    has_left: &'a Cell<bool>,
}

impl<'a, W> Noting<'a, W> {
    /// Makes one that sets `has_left`.
    pub fn new(writer: W, has_left: &'a Cell<bool>) -> Self
        ensures writer { result.writer ≡ writer }
        ensures has_left { result.has_left ≡ has_left.entry }
    {
        Noting { writer, has_left }
    }
}

impl<W: Write> Write for Noting<'_, W> {
    ghost contents = { λ noting. W.contents noting.writer };

    fn write(&mut self, piece: &[u8]) -> io::Result<usize> {
        let result = self.writer.write(piece);
        if let Err(error) = &result {
            if error.kind() == ErrorKind::BrokenPipe {
                self.has_left.set(true);
            }
        }
        result
    }

    fn flush(&mut self) -> io::Result<()> {
        self.writer.flush()
    }
}

/// A writer that drops what it gets once the reader of another one has left.
#[derive(Drop)]
pub struct Muted<'a, W> {
    writer: W,
    has_left: &'a Cell<bool>,
}

impl<'a, W> Muted<'a, W> {
    /// Makes one that looks at `has_left`, which a `Noting` sets.
    pub fn new(writer: W, has_left: &'a Cell<bool>) -> Self
        ensures writer { result.writer ≡ writer }
        ensures has_left { result.has_left ≡ has_left.entry }
    {
        Muted { writer, has_left }
    }
}

impl<W: Write> Write for Muted<'_, W> {
    fn write(&mut self, piece: &[u8]) -> io::Result<usize> {
        if self.has_left.get() {
            Ok(piece.len())
        } else {
            self.writer.write(piece)
        }
    }

    fn flush(&mut self) -> io::Result<()> {
        self.writer.flush()
    }
}
