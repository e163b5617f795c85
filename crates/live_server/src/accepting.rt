//! Connections that can't be taken.
ghost use Rattle.std.specs.Prelude.{◌≡◌, ◌||◌};
ghost use Rattle.std.specs.IoError.{error_kind, raw_os_error};
ghost use Rattle.live_server.specs.Accepting as spec;

use std::io::{self, ErrorKind, Write};
use std::net::TcpStream;
use std::sync::Wait;
use std::thread::Parker;
use std::time::Duration;
use whole_writes::write_whole;

/// Whether a connection that couldn't be taken says nothing of the next: its other side gave it up, it isn't let in or its
/// network failed, or the system is short of files or memory for now. Any other error is of the listening itself.
pub(crate) fn is_passing(error: &io::Error) -> bool
    ensures { result ≡ spec.is_passing (error_kind error.now) (raw_os_error error.now) }
{
    is_passing_kind(error.kind()) || is_passing_number(error.raw_os_error())
}

/// Whether an error of this kind passes.
fn is_passing_kind(kind: ErrorKind) -> bool
    ensures { result ≡ spec.is_passing_kind kind }
{
    matches!(
        kind,
        ErrorKind::Interrupted
            | ErrorKind::ConnectionAborted
            | ErrorKind::ConnectionReset
            | ErrorKind::PermissionDenied
            | ErrorKind::TimedOut
            | ErrorKind::NetworkDown
            | ErrorKind::NetworkUnreachable
            | ErrorKind::HostUnreachable
            | ErrorKind::WouldBlock
            | ErrorKind::OutOfMemory
    )
}

/// Whether an error of the system with this number passes, if it is one: those that have no kind.
fn is_passing_number(number: Option<i32>) -> bool
    ensures { result ≡ spec.is_passing_number number }
{
    match number {
        Some(number) => is_passing_code(number.unsigned_abs()),
        None => false,
    }
}

/// The same of the number (Linux: ENFILE, EMFILE, ENONET, EPROTO, ENOPROTOOPT, ENOBUFS, EHOSTDOWN).
fn is_passing_code(number: u32) -> bool
    ensures { result ≡ spec.is_passing_code number }
{
    matches!(number, 23 | 24 | 64 | 71 | 92 | 105 | 112)
}

/// How many milliseconds the next connection is waited for where one can't be taken: a shortage may last, and isn't asked about
/// without a pause.
const PAUSE: u64 = 10;

/// What is told of connections that can't be taken.
const NOTICE: &str = "cosem-flow: a connection can't be taken\n";

/// Connections that can't be taken, and where that is told: once, until one is taken again.
#[derive(Drop)]
pub(crate) struct Untaken<F: Write + Drop> {
    output: F,
    is_told: bool,
}

impl<F: Write + Drop> Untaken<F> {
    ghost use Rattle.std.specs.Prelude.{◌≡◌, true};
    ghost use Rattle.live_server.specs.Accepting as spec;

    /// None is told there yet.
    pub(crate) fn new(output: F) -> Self {
        Untaken {
            output,
            is_told: false,
        }
    }

    /// Lets a connection through that was taken; None where one is passed over, which is told.
    ///
    /// # Errors
    /// The listening itself fails.
    pub(crate) fn let_through<R: Wait>(
        &mut self,
        rt: &R,
        stream: io::Result<TcpStream>,
    ) -> io::Result<Option<TcpStream>>
        ensures through { result ≡ spec.let_through stream }
        ensures told { self.new.is_told ≡ spec.is_told_behind result self.old.is_told }
    {
        match stream {
            Ok(stream) => {
                self.is_told = false;
                Ok(Some(stream))
            }
            Err(error) if is_passing(&error) => {
                self.pass_over(rt);
                Ok(None)
            }
            Err(error) => Err(error),
        }
    }

    /// Passes over a connection, and waits a while. That it can't be told is passed over too.
    fn pass_over<R: Wait>(&mut self, rt: &R)
        ensures { self.new.is_told ≡ true }
    {
        if !self.is_told {
            let _ = write_whole(&mut self.output, NOTICE.as_bytes());
            self.is_told = true;
        }
        Parker::new().park_timeout(rt, Duration::from_millis(PAUSE));
    }
}
