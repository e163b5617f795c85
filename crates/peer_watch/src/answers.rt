//! What the frame of an answer says of the association.
ghost use Rattle.std.specs.Prelude.{◌≡◌};
ghost use Rattle.peer_watch.specs.Frames as frames;

/// How many bytes a header has (IEC 62056-4-7, the wrapper header): four words of 16 bits, big endian, of which the third is the wPort
/// that the frame goes to, the client's, and the fourth how many bytes the APDU has.
const HEADER_LENGTH: usize = 8;

/// The tag of an AARE (IEC 62056-5-3, AARE-apdu).
const AARE: u8 = 0x61;

/// The tag of an RLRE (IEC 62056-5-3, RLRE-apdu).
const RLRE: u8 = 0x63;

/// Where an AARE of this server has its result, counted from its tag: behind the tag and the length, two bytes; the
/// application-context-name, 11; and the tags and lengths of the result, four.
const RESULT: usize = 17;

/// Where it has the diagnostic: behind the result and the tags and lengths of the result-source-diagnostic, six bytes.
const DIAGNOSTIC: usize = 24;

/// The result of an association that is accepted (IEC 62056-5-3, Association-result).
const ACCEPTED: u8 = 0;

/// What the frame of an answer says of the association.
#[derive(Clone, Copy)]
pub enum Answer {
    /// The client with this wPort, its SAP, is associated.
    Associated { client: u16 },
    /// The association is refused to it, with a diagnostic (IEC 62056-5-3, associate-source-diagnostic, acse-service-user).
    Refused { client: u16, diagnostic: u8 },
    /// The association is released.
    Released,
    /// Nothing.
    Other,
}

/// What the frame of an answer of this server says of the association. Bytes that are no whole frame say nothing.
pub fn answer_in(frame: &[u8]) -> Answer
    ensures { result ≡ frames.answer_in frame.now }
{
    let [_, _, _, _, high, low, many, few, apdu @ ..] = frame else {
        return Answer::Other;
    };
    if apdu.len() == word(*many, *few) as usize {
        answer_to(word(*high, *low), apdu)
    } else {
        Answer::Other
    }
}

/// How many bytes the frame has that begins so: as its header says, or as are there where that isn't whole.
pub fn frame_length(frame: &[u8]) -> usize
    ensures { result ≡ frames.frame_length frame.now }
{
    match frame {
        [_, _, _, _, _, _, many, few, ..] => HEADER_LENGTH + word(*many, *few) as usize,
        _ => frame.len(),
    }
}

/// A word of 16 bits, the high byte first.
fn word(high: u8, low: u8) -> u16
    ensures { result ≡ frames.word high low }
{
    256 * u16::from(high) + u16::from(low)
}

/// What an APDU says that goes to this client.
fn answer_to(client: u16, apdu: &[u8]) -> Answer
    ensures { result ≡ frames.answer_to client apdu.now }
{
    match apdu {
        [AARE, ..] if DIAGNOSTIC < apdu.len() => {
            if apdu[RESULT] == ACCEPTED {
                Answer::Associated { client }
            } else {
                Answer::Refused {
                    client,
                    diagnostic: apdu[DIAGNOSTIC],
                }
            }
        }
        [RLRE, ..] => Answer::Released,
        _ => Answer::Other,
    }
}
