//! What is written to a connection: refusals of associations wait, and an answer of which it isn't known whether it holds is never
//! written (own profile).
ghost use Rattle.std.specs.Prelude.{◌≡◌, ◌↔◌, IsOk, false};

use crate::answers::Answer;
use crate::events::{Event, Tells};
use crate::peer::Peer;
use std::io::{self, Write};
use std::time::Clock;

/// What is written to a connection, frame by frame, each from its first byte to its last. An answer that refuses an association waits
/// before its first byte is written, as `rules::wait_behind` says. What an answer says of the association is told.
///
/// While there is doubt, every write is refused, and nothing is written: so the answer to a step of which it isn't known whether it was
/// kept never gets out.
#[derive(Drop)]
pub struct PeerWriter<'p, 'r, 't, W: Write + Drop, C: Clock, T: Tells> {
    /// The stream that is written to.
    pub stream: W,
    /// The connection.
    pub peer: &'p Peer<'r, C>,
    /// Where it is told what answers say.
    pub told: &'t T,
}

impl<W: Write + Drop, C: Clock, T: Tells> PeerWriter<'_, '_, '_, W, C, T> {
    /// Looks at bytes that are to be written, and waits where a frame begins with them that refuses an association.
    fn look_at(&self, bytes: &[u8]) {
        match self.peer.note_bytes(bytes) {
            Answer::Associated { client } => {
                self.told.tell(Event::Associated(self.told.name_of(client)));
            }
            Answer::Refused { diagnostic, .. } => {
                self.told.tell(Event::Refused(diagnostic));
                self.peer.wait();
            }
            Answer::Released => self.told.tell(Event::Released),
            Answer::Other => {}
        }
    }
}

/// Whether it may be written: not while there is doubt.
fn may_write(doubt: bool) -> io::Result<()>
    ensures { IsOk result ↔ (doubt ≡ false) }
{
    if doubt {
        Err(io::Error::other("it isn't known whether a step was kept"))
    } else {
        Ok(())
    }
}

impl<W: Write + Drop, C: Clock, T: Tells> Write for PeerWriter<'_, '_, '_, W, C, T> {
    ghost contents = { λ writer. W.contents writer.stream };

    fn write(&mut self, buf: &[u8]) -> io::Result<usize> {
        may_write(self.told.is_in_doubt())?;
        self.look_at(buf);
        let count = self.stream.write(buf)?;
        self.peer.note_written(count);
        Ok(count)
    }

    fn flush(&mut self) -> io::Result<()> {
        self.stream.flush()
    }
}
