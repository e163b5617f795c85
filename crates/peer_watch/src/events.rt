//! What is told of a connection (own profile).

use tcp_wrapper::place::FramePlace;

/// Why a connection was closed.
#[derive(Clone, Copy)]
pub enum End {
    /// The client closed it, between two frames.
    Peer,
    /// It was idle for too long.
    Idle,
    /// Its gate had it end.
    Gate,
    /// A fault, in its own words.
    Fault(&'static str),
    /// A fault of a frame, in its own words, and where the frame begins.
    Frame(&'static str, FramePlace),
}

/// What is told of a connection.
#[derive(Clone, Copy)]
pub enum Event<'e> {
    /// It was opened, and got a seat.
    Opened,
    /// A client with this name is associated.
    Associated(&'e str),
    /// An association was refused, with this diagnostic (IEC 62056-5-3, associate-source-diagnostic, acse-service-user).
    Refused(u8),
    /// The association was released.
    Released,
    /// It was closed behind so many whole frames.
    Closed { why: End, requests: u64 },
    /// It was closed at once, as there was no seat for it.
    Full,
}

/// Where the events of a connection are told.
pub trait Tells {
    /// By what name the client with this SAP is told of.
    fn name_of(&self, client: u16) -> &str;

    /// Tells an event. What can't be told is passed over.
    fn tell(&self, event: Event<'_>);

    /// Whether it isn't known if the answer that is to be written holds: then none is written.
    fn is_in_doubt(&self) -> bool;
}

/// Tells nothing.
#[derive(Clone, Copy)]
pub struct Untold;

impl Tells for Untold {
    fn name_of(&self, _client: u16) -> &str {
        "-"
    }

    fn tell(&self, _event: Event<'_>) {}

    fn is_in_doubt(&self) -> bool {
        false
    }
}
