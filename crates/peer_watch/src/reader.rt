//! What is read of a connection, which is closed where it is idle for too long (own profile).

use crate::peer::Peer;
use crate::rules::Left;
use std::io::{self, ErrorKind, Read};
use std::net::TcpStream;
use std::time::{Clock, Duration};

/// What can be told how long a read may wait.
pub trait Patient {
    /// From here on a read that waits longer than this fails with `WouldBlock` or `TimedOut`; with none a read waits as long as it takes.
    ///
    /// # Errors
    /// The system's; a time of nothing is one.
    fn wait_at_most(&self, limit: Option<Duration>) -> io::Result<()>;
}

impl Patient for &TcpStream {
    fn wait_at_most(&self, limit: Option<Duration>) -> io::Result<()> {
        self.set_read_timeout(limit)
    }
}

/// What is read of a connection. Each read waits for what is left of the time that the connection may be idle. Where nothing is left, or
/// the read ends by that, the connection was idle for too long, and the read is an error. Only a whole frame moves the time, and a part
/// of one doesn't. Where it may be idle for any time, the stream is never told how long to wait.
#[derive(Drop)]
pub struct PeerReader<'p, 'r, S: Read + Drop, C: Clock> {
    /// The stream that is read.
    pub stream: S,
    /// The connection.
    pub peer: &'p Peer<'r, C>,
}

impl<S: Read + Patient + Drop, C: Clock> PeerReader<'_, '_, S, C> {
    /// Tells the stream how long the next read may wait.
    fn limit(&self) -> io::Result<()> {
        if self.peer.may_idle() {
            return Ok(());
        }
        match self.peer.left() {
            Left::Unbounded => self.stream.wait_at_most(None),
            Left::AtMost(left) => self.stream.wait_at_most(Some(left)),
            Left::Over => {
                self.peer.note_idle();
                Err(io::Error::new(ErrorKind::TimedOut, "idle for too long"))
            }
        }
    }
}

impl<S: Read + Patient + Drop, C: Clock> Read for PeerReader<'_, '_, S, C> {
    ghost remaining = { λ reader. S.remaining reader.stream };

    fn read(&mut self, buf: &mut [u8]) -> io::Result<usize> {
        self.limit()?;
        let outcome = self.stream.read(buf);
        if let Err(error) = &outcome {
            if is_timeout(error) {
                self.peer.note_idle();
            }
        }
        outcome
    }
}

/// Whether a read ended because it had waited for so long.
fn is_timeout(error: &io::Error) -> bool {
    matches!(error.kind(), ErrorKind::WouldBlock | ErrorKind::TimedOut)
}
