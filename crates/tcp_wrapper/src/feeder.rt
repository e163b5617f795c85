//! Frames in a stream that comes in pieces, however these are cut.
ghost use Rattle.std.specs.Prelude.{◌≡◌, ◌<◌, ◌≤◌, ◌+◌, ◌⊎◌, List, ℕ, Option, Some, None, [], ◌++◌, length, IfOk, OnOk, IfErr, IfSome, IsNone, IsTrue, ◌↔◌};
ghost use Rattle.std.specs.Result.{result_err};
ghost use Rattle.tcp_wrapper.specs.Stream.{Splits, IsPartial, Refuses, Causes, Ends, Reads, word_at, header_fault, IsFrame, frame_of};
ghost use Rattle.tcp_wrapper.specs.Judging.{Judges, Takes};
ghost use Rattle.tcp_wrapper.specs.declared.fault.WrapFault.{WrapFault as FaultValue};
ghost use Rattle.tcp_wrapper.specs.declared.message.Message.{Message as MessageValue};

use crate::fault::WrapFault;
use crate::framing::{HEADER_LENGTH, MAX_APDU_LENGTH, SERVER_PORT, VERSION};
use crate::message::Message;
use cosem_data::bytes::Bytes;
use cosem_data::memory::Memory;
use std::alloc::Global;
use std::marker::Model;

/// What a piece of the stream gave: frames, and then a fault, if one was met.
#[derive(Debug, Drop)]
pub struct Fed {
    /// What the frames brought, in their order.
    pub frames: Vec<Message>,
    /// Why the stream is read no further.
    pub fault: Option<WrapFault>,
}

/// Reads frames from a stream that comes in pieces (IEC 62056-4-7). It holds the bytes of the frame that has begun, and nothing after a
/// fault. Contracts see these bytes, or None after a fault.
#[derive(Debug, Drop)]
pub struct Feeder {
    held: Vec<u8>,
    is_failed: bool,
}

impl Model for Feeder {
    ghost use Rattle.std.specs.Prelude.{List, ℕ, Option, Some, None, if◌then◌else◌};
    ghost use Rattle.tcp_wrapper.specs.Stream.{IsPartial};

    ghost Value = { Option (List ℕ) };

    ghost view = { λ a. if a.is_failed then None else Some a.held.items };

    ghost invariant = { λ a. IsPartial a.held.items };
}

impl Feeder {
    /// A feeder that holds nothing.
    pub fn new(alloc: Global) -> Feeder
        ensures { result ≡ Some [] }
    {
        Feeder {
            held: Vec::new(alloc),
            is_failed: false,
        }
    }

    /// Whether no frame has begun and there was no fault. Without a fault, a stream that ends where this is true has a clean end, and
    /// one that ends elsewhere is cut inside a frame.
    pub fn is_idle(&self) -> bool
        ensures { IsTrue result ↔ (self.now ≡ Some []) }
    {
        !self.is_failed && self.held.is_empty()
    }

    /// Takes the next piece of the stream, and gives the frames that are whole now, each once and in their order. What has begun of
    /// a next frame is held. Where a wrong header stands next, or memory is refused, the frames before it are given with that fault, and
    /// from then on each call gives `Failed` and no frames. No memory is taken by a length that was read: only what is there is held.
    pub fn feed(&mut self, alloc: Global, piece: &[u8]) -> Fed
        // Whatever came before: the frames given so far are the whole frames of all bytes fed so far, and then less than a frame is
        // held, or a fault stands next.
        ensures so_far { IfSome self.old (λ held. (before : List ℕ) (given : List MessageValue) →
            Splits before given held →
            Reads (before ++ piece.now) (given ++ result.frames.items) result.fault self.new) }

        // Where a wrong header stands next, that is the fault, unless memory runs out.
        ensures exact { IfSome self.old (λ held.
            (frames : List MessageValue) (rest : List ℕ) (fault : FaultValue) →
            Splits (held ++ piece.now) frames rest → Refuses fault rest →
            (result.fault ≡ Some fault) ⊎ (result.fault ≡ Some WrapFault.Memory)) }

        // Where frames stand in what was held and the piece, these are given, unless memory runs out.
        ensures given { IfSome self.old (λ held. (frames : List MessageValue) (rest : List ℕ) →
            Splits (held ++ piece.now) frames rest → Ends rest →
            (result.frames.items ≡ frames) ⊎ (result.fault ≡ Some WrapFault.Memory)) }

        // Where less than a frame stands behind them, that is held and there is no fault, unless memory runs out.
        ensures kept { IfSome self.old (λ held. (frames : List MessageValue) (rest : List ℕ) →
            Splits (held ++ piece.now) frames rest → IsPartial rest →
            ((self.new ≡ Some rest) × (result.fault ≡ None)) ⊎ (result.fault ≡ Some WrapFault.Memory)) }

        ensures failed { IsNone self.old → (self.new ≡ None)
            × (result.frames.items ≡ [])
            × (result.fault ≡ Some WrapFault.Failed) }
    {
        let mut frames = Vec::new(alloc);
        let fault = self.take_messages(alloc, piece, &mut frames).err();
        Fed { frames, fault }
    }

    /// As `feed`, with the messages put behind those that are there.
    fn take_messages(
        &mut self,
        alloc: Global,
        piece: &[u8],
        messages: &mut Vec<Message>,
    ) -> Result<(), WrapFault>
        ensures so_far { IfSome self.old (λ held. (before : List ℕ) →
            Splits before messages.old.items held →
            Reads (before ++ piece.now) messages.new.items (result_err result) self.new) }
        ensures failed { IsNone self.old → (self.new ≡ None)
            × (messages.new.items ≡ messages.old.items)
            × (result_err result ≡ Some WrapFault.Failed) }
    {
        if self.is_failed {
            return Err(WrapFault::Failed);
        }
        let taken = take_all(alloc, &mut self.held, piece, messages);
        if taken.is_err() {
            self.held.clear();
            self.is_failed = true;
        }
        taken
    }
}

/// Takes the frames of a piece behind what is held, and holds what has begun of the next.
fn take_all(
    alloc: Global,
    held: &mut Vec<u8>,
    piece: &[u8],
    messages: &mut Vec<Message>,
) -> Result<(), WrapFault>
    requires { IsPartial held.old.items }
    ensures partial { OnOk result (IsPartial held.new.items) }
    ensures ok { OnOk result ((before : List ℕ) → Splits before messages.old.items held.old.items →
        Splits (before ++ piece.now) messages.new.items held.new.items) }
    ensures err { IfErr result (λ fault. (before : List ℕ) →
        Splits before messages.old.items held.old.items →
        (rest : List ℕ) × Splits (before ++ piece.now) messages.new.items rest
        × Causes fault rest) }
{
    let mut rest = piece;
    while !rest.is_empty() {
        let (message, behind) = take(alloc, held, rest)?;
        if let Some(message) = message {
            let Ok(()) = messages.push(message) else {
                return Err(WrapFault::Memory);
            };
        }
        rest = behind;
    }
    Ok(())
}

/// Takes a frame, or bytes of one that has begun, from the front of a piece behind what is held, and gives what is left of the piece.
fn take<'p>(
    alloc: Global,
    held: &mut Vec<u8>,
    piece: &'p [u8],
) -> Result<(Option<Message>, &'p [u8]), WrapFault>
    requires partial { IsPartial held.old.items }
    requires some { 0 < length piece.now }
    ensures takes { Takes (held.old.items ++ piece.now) result held.new.items }
    ensures shorter { IfOk result (λ taken. length taken.1.now < length piece.now) }
{
    if held.is_empty() {
        take_first(alloc, held, piece)
    } else {
        take_more(alloc, held, piece)
    }
}

/// As `take`, where nothing is held: a whole frame is taken where it lies in the piece.
fn take_first<'p>(
    alloc: Global,
    held: &mut Vec<u8>,
    piece: &'p [u8],
) -> Result<(Option<Message>, &'p [u8]), WrapFault>
    requires none { held.old.items ≡ [] }
    requires some { 0 < length piece.now }
    ensures takes { Takes piece.now result held.new.items }
    ensures shorter { IfOk result (λ taken. length taken.1.now < length piece.now) }
{
    match judge(piece) {
        Judgement::Partial => {
            let Ok(()) = held.extend_from_slice(piece) else {
                return Err(WrapFault::Memory);
            };
            Ok((None, &[]))
        }
        Judgement::Whole(size) => {
            let (frame, rest) = piece.split_at(size);
            let Ok(message) = message_of(alloc, frame) else {
                return Err(WrapFault::Memory);
            };
            Ok((Some(message), rest))
        }
        Judgement::Refused(fault) => Err(fault),
    }
}

/// As `take`, where a frame has begun: what it lacks is taken of the piece, as far as it is there.
fn take_more<'p>(
    alloc: Global,
    held: &mut Vec<u8>,
    piece: &'p [u8],
) -> Result<(Option<Message>, &'p [u8]), WrapFault>
    requires partial { IsPartial held.old.items }
    requires some { 0 < length piece.now }
    ensures takes { Takes (held.old.items ++ piece.now) result held.new.items }
    ensures shorter { IfOk result (λ taken. length taken.1.now < length piece.now) }
{
    let (part, rest) = piece.split_at(lacking(held).min(piece.len()));
    let Ok(()) = held.extend_from_slice(part) else {
        return Err(WrapFault::Memory);
    };
    match judge(held) {
        Judgement::Partial => Ok((None, rest)),
        Judgement::Whole(_) => {
            let Ok(message) = message_of(alloc, held) else {
                return Err(WrapFault::Memory);
            };
            held.clear();
            Ok((Some(message), rest))
        }
        Judgement::Refused(fault) => Err(fault),
    }
}

/// How many bytes a beginning of a frame lacks of its header, or of the frame where the header is there.
fn lacking(held: &[u8]) -> usize
    requires { IsPartial held.now }
    ensures some { 0 < result }
    ensures header { length held.now < 8 → length held.now + result ≡ 8 }
    ensures frame { 8 ≤ length held.now → length held.now + result ≡ 8 + word_at held.now 6 }
{
    if held.len() < HEADER_LENGTH {
        HEADER_LENGTH - held.len()
    } else {
        HEADER_LENGTH + word(held, 6) as usize - held.len()
    }
}

/// What some bytes begin with.
enum Judgement {
    /// Less than a frame, and nothing wrong.
    Partial,
    /// A whole frame with so many bytes.
    Whole(usize),
    /// A wrong header.
    Refused(WrapFault),
}

/// What the bytes begin with. A header is judged where it is whole.
fn judge(bytes: &[u8]) -> Judgement
    ensures { Judges result bytes.now }
{
    if bytes.len() < HEADER_LENGTH {
        return Judgement::Partial;
    }
    if word(bytes, 0) != VERSION {
        return Judgement::Refused(WrapFault::Version);
    }
    if word(bytes, 4) != SERVER_PORT {
        return Judgement::Refused(WrapFault::Destination);
    }
    let length = word(bytes, 6) as usize;
    if length > MAX_APDU_LENGTH {
        return Judgement::Refused(WrapFault::Length);
    }
    let size = HEADER_LENGTH + length;
    if bytes.len() < size {
        Judgement::Partial
    } else {
        Judgement::Whole(size)
    }
}

/// The word at a place of a header.
fn word(bytes: &[u8], place: usize) -> u16
    requires { place + 1 < length bytes.now }
    ensures { result ≡ word_at bytes.now place }
{
    u16::from_be_bytes([bytes[place], bytes[place + 1]])
}

/// What a frame brings, whose bytes these are.
fn message_of(alloc: Global, frame: &[u8]) -> Result<Message, Memory>
    requires right { header_fault frame.now ≡ None }
    requires whole { length frame.now ≡ 8 + word_at frame.now 6 }
    ensures { IfOk result (λ message. (frame.now ≡ frame_of message) × IsFrame message) }
{
    let source = word(frame, 2);
    let apdu = Bytes::new(Vec::from_slice(alloc, &frame[HEADER_LENGTH..])?);
    Ok(Message { source, apdu })
}
