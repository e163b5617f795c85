//! Where in a stream a frame stands.
ghost use Rattle.std.specs.Prelude.{◌≡◌, ◌<◌, ◌+◌, ◌^◌, [], length};
ghost use Rattle.tcp_wrapper.specs.Stream.{frames_of};
ghost use Rattle.tcp_wrapper.specs.Places.{place_behind, moved};

use crate::message::Message;
use std::fmt;

/// Where in a stream a frame stands (own profile).
#[derive(Clone, Copy, Debug, PartialEq, Eq, Drop)]
pub struct FramePlace {
    /// The number of the frame, from 1.
    pub frame: u64,
    /// How many bytes stand before it.
    pub byte: u64,
}

impl FramePlace {
    /// The place of the first frame.
    pub fn first() -> FramePlace
        ensures { result ≡ place_behind [] }
    {
        FramePlace { frame: 1, byte: 0 }
    }

    /// The place behind these frames, the first of which stands here.
    pub fn behind(self, messages: &[Message]) -> FramePlace
        requires frame { self.frame + length messages.now < 2 ^ 64 }
        requires byte { self.byte + length (frames_of messages.now) < 2 ^ 64 }
        ensures { result ≡ moved self messages.now }
    {
        let mut byte = self.byte;
        for message in messages {
            byte += message.frame_length();
        }
        FramePlace {
            frame: self.frame + messages.len() as u64,
            byte,
        }
    }
}

// Written by hand, so that a contract knows what is printed.
impl fmt::Display for FramePlace {
    ghost use Rattle.std.specs.Prelude.{Some};
    ghost use Rattle.tcp_wrapper.specs.Places.{place_words};

    ghost output = { λ place. Some (place_words place) };

    fn fmt<W: fmt::Write>(&self, f: &mut fmt::Formatter<W>) -> fmt::Result {
        let FramePlace { frame, byte } = *self;
        write!(f, "frame {frame}, which begins at byte {byte}")
    }
}
