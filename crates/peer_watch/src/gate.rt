//! The gate of a connection's seat, which counts its frames (own profile).

use crate::peer::Peer;
use gates::{Gate, Go};
use std::time::Clock;

/// The gate of a connection's seat: before each whole frame it is noted, and then an inner gate is asked; once its answer
/// was written that is noted too.
#[derive(Drop)]
pub struct PeerGate<'g, 'p, 'r, G: Gate, C: Clock> {
    /// The gate that is asked.
    pub gate: &'g G,
    /// The connection.
    pub peer: &'p Peer<'r, C>,
}

impl<G: Gate, C: Clock> Gate for PeerGate<'_, '_, '_, G, C> {
    ghost may_give_up = { λ gate seat. G.may_give_up gate.gate.now seat };

    fn before(&self, seat: usize) -> Go {
        self.peer.note_frame();
        self.gate.before(seat)
    }

    fn after(&self, seat: usize) {
        self.peer.note_answer();
        self.gate.after(seat)
    }
}
