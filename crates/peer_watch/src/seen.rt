//! What was seen of a connection (own profile).
ghost use Rattle.std.specs.Prelude.{◌≡◌};
ghost use Rattle.peer_watch.specs.Seen as steps;

use crate::answers::{Answer, answer_in, frame_length};

/// What was seen of a connection so far.
#[derive(Clone, Copy)]
pub struct Seen {
    /// How many whole frames came.
    pub requests: u64,
    /// How many associations were refused.
    pub refusals: u32,
    /// The SAP of the client that is associated.
    pub client: Option<u16>,
    /// Whether it was idle for too long.
    pub is_idle: bool,
    /// How many bytes of an answer's frame are still to be written.
    pub unwritten: usize,
}

impl Seen {
    /// Of a connection that was just opened.
    pub const NOTHING: Seen = Seen {
        requests: 0,
        refusals: 0,
        client: None,
        is_idle: false,
        unwritten: 0,
    };

    /// With one more whole frame.
    pub fn with_frame(self) -> Seen
        ensures { result ≡ steps.with_frame self }
    {
        Seen {
            requests: self.requests.saturating_add(1),
            ..self
        }
    }

    /// What the answer says whose frame begins with these bytes that are to be written. Where they go on with a frame, nothing.
    pub fn told_by(self, bytes: &[u8]) -> Answer
        ensures { result ≡ steps.told_by bytes.now self }
    {
        if self.unwritten == 0 {
            answer_in(bytes)
        } else {
            Answer::Other
        }
    }

    /// With these bytes to be written.
    pub fn with_bytes(self, bytes: &[u8]) -> Seen
        ensures { result ≡ steps.with_bytes bytes.now self }
    {
        if self.unwritten == 0 {
            let seen = self.with_answer(answer_in(bytes));
            Seen {
                unwritten: frame_length(bytes),
                ..seen
            }
        } else {
            self
        }
    }

    /// With an answer that says this.
    fn with_answer(self, answer: Answer) -> Seen
        ensures { result ≡ steps.with_answer answer self }
    {
        match answer {
            Answer::Associated { client } => Seen {
                client: Some(client),
                ..self
            },
            Answer::Refused { .. } => Seen {
                client: None,
                refusals: self.refusals.saturating_add(1),
                ..self
            },
            Answer::Released => Seen {
                client: None,
                ..self
            },
            Answer::Other => self,
        }
    }

    /// With so many bytes written of those that were to be.
    pub fn with_written(self, count: usize) -> Seen
        ensures { result ≡ steps.with_written count self }
    {
        Seen {
            unwritten: self.unwritten.saturating_sub(count),
            ..self
        }
    }
}
