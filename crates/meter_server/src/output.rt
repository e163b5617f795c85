//! An output whose reader may go away, as `head` does.
use std::io;
use std::io::{ErrorKind, Write};

/// What a program writes its answers on (own profile).
pub trait Output: Write {
    /// Whether a write failed since nobody reads any more what is written.
    fn is_closed(&self) -> bool;
}

/// A writer that notes when its reader has gone (own profile).
#[derive(Drop)]
pub struct Pipe<W> {
    writer: W,
    is_closed: bool,
}

impl<W> Pipe<W> {
    /// The writer, whose reader hasn't gone yet.
    pub fn new(writer: W) -> Self {
        Pipe {
            writer,
            is_closed: false,
        }
    }
}

impl<W: Write> Write for Pipe<W> {
    ghost contents = { λ pipe. W.contents pipe.writer };

    fn write(&mut self, bytes: &[u8]) -> io::Result<usize> {
        match self.writer.write(bytes) {
            Ok(count) => Ok(count),
            Err(error) => {
                self.is_closed |= error.kind() == ErrorKind::BrokenPipe;
                Err(error)
            }
        }
    }

    fn flush(&mut self) -> io::Result<()> {
        self.writer.flush()
    }
}

impl<W: Write> Output for Pipe<W> {
    fn is_closed(&self) -> bool {
        self.is_closed
    }
}

/// What is kept in memory has no reader that goes away.
impl Output for Vec<u8> {
    fn is_closed(&self) -> bool {
        false
    }
}
