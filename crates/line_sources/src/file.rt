//! Lines of a file or of a FIFO (own profile).
ghost use Rattle.std.specs.Prelude.{◌≤◌, IfOk, IfSome, length};

use std::fs::File;
use std::io::{self, Read};
use std::os::unix::fs::FileTypeExt;

/// What ends a line.
const END: u8 = b'\n';

/// What was opened.
#[derive(Drop)]
pub struct Opened<F: Read + Drop> {
    pub file: F,
    /// Whether it is a FIFO, which further writers may open once all that it has were read.
    pub is_fifo: bool,
}

/// What opens files to be read, each as an `F`.
pub trait Opens<F: Read + Drop> {
    /// Opens the file at a path. That waits for the writer of a FIFO.
    ///
    /// # Errors
    /// The system's.
    fn open(&self, path: &str) -> io::Result<Opened<F>>;
}

impl Opens<File> for HostRuntime {
    fn open(&self, path: &str) -> io::Result<Opened<File>> {
        let file = File::open(self, path)?;
        let is_fifo = file.metadata()?.file_type().is_fifo();
        Ok(Opened { file, is_fifo })
    }
}

/// How far the reading of a file is.
#[derive(Drop)]
enum Reading<F: Read + Drop> {
    /// It isn't open: it is opened at the next read.
    Closed,
    /// It is open, and is a FIFO or not.
    Open { file: F, is_fifo: bool },
    /// Nothing more is read.
    Ended,
}

/// The lines of a file, which is opened at the first read. A file is read once; a FIFO is opened again whenever its writers have closed
/// it, so its lines never end. What ends without a line feed is given one, so that the lines of two writers don't run together. Where it
/// can't be opened or read, that is the error.
#[derive(Drop)]
pub struct FileLines<'o, 'p, O: Opens<F>, F: Read + Drop> {
    opener: &'o O,
    path: &'p str,
    reading: Reading<F>,
    /// Whether a line has begun, and not ended.
    is_within: bool,
}

impl<'o, 'p, O: Opens<F>, F: Read + Drop> FileLines<'o, 'p, O, F> {
    /// The lines of the file at this path. Nothing is opened yet.
    pub fn new(opener: &'o O, path: &'p str) -> Self {
        FileLines {
            opener,
            path,
            reading: Reading::Closed,
            is_within: false,
        }
    }

    /// Opens the file where it isn't open, and reads on. None where its writers have closed it, and no line is to be ended.
    fn read_open(&mut self, buf: &mut [u8]) -> io::Result<Option<usize>>
        ensures { IfOk result (λ read. IfSome read (λ count. count ≤ length buf.new)) }
    {
        if let Reading::Closed = self.reading {
            let Opened { file, is_fifo } = self.opener.open(self.path)?;
            self.reading = Reading::Open { file, is_fifo };
        }
        let Reading::Open { file, is_fifo } = &mut self.reading else {
            return Ok(Some(0));
        };
        let count = file.read(buf)?;
        match buf[..count].last() {
            Some(last) => {
                self.is_within = *last != END;
                Ok(Some(count))
            }
            None => {
                self.reading = after(*is_fifo);
                Ok(self.end_line(buf))
            }
        }
    }

    /// Ends a line that has begun.
    fn end_line(&mut self, buf: &mut [u8]) -> Option<usize>
        ensures { IfSome result (λ count. count ≤ length buf.new) }
    {
        let first = buf.first_mut()?;
        if !self.is_within {
            return None;
        }
        *first = END;
        self.is_within = false;
        Some(1)
    }
}

/// How far the reading is where all that there was were read.
fn after<F: Read + Drop>(is_fifo: bool) -> Reading<F> {
    if is_fifo {
        Reading::Closed
    } else {
        Reading::Ended
    }
}

impl<O: Opens<F>, F: Read + Drop> Read for FileLines<'_, '_, O, F> {
    fn read(&mut self, buf: &mut [u8]) -> io::Result<usize> {
        if buf.is_empty() {
            return Ok(0);
        }
        for _ in 0..u64::MAX {
            if let Some(count) = self.read_open(buf)? {
                return Ok(count);
            }
        }
        Ok(0)
    }
}
