ghost use Rattle.std.specs.Prelude.{◌≡◌, ◌<◌, ℕ, List, IfOk, IfSome, None, Some, cond, length, option_map, true};
ghost use Rattle.std.specs.Result.{result_ok};
ghost use Rattle.hex.specs.Hex.{decode_of};
ghost use Rattle.cosem_data.specs.View.{tree};
ghost use Rattle.meter_theory.specs.Plan.{clock_object, object_at};
ghost use Rattle.line_server.specs.Spelling as spec;
ghost use Rattle.line_server.specs.Spelling.{line_of};
ghost use Rattle.line_server.specs.Words as words;

use crate::answering::Ask;
use crate::digits::take_digits;
use crate::reason::Reason;
use civil_moment::moment::Moment;
use cosem_data::cell::CellRef;
use cosem_data::data::Data;
use cosem_data::memory::Memory;
use cosem_data::name::LogicalName;
use meter_theory::limits::TICK_SECONDS;
use object_model::plan::Plan;
use std::alloc::Global;
use value_text::name::name_in;
use value_text::value::value_in;
use value_words::marks::behind;
use value_words::numbers::number_in;

/// What a line says.
#[derive(Debug, Drop)]
pub enum Line<'a> {
    /// Nothing: an empty line, or one that begins with `#`.
    Skipped,
    /// `CLIENT HEX`: the client with this name sends this APDU, of at least one byte.
    Ask(Ask<'a>),
    /// `in NAME HEX`: this value comes from outside into this cell, attribute 2 of the object with this name.
    Input { cell: CellRef, value: Data },
    /// `eval NAME`: the register monitor with this name is evaluated.
    Evaluate(LogicalName),
    /// `at MOMENT`: the clock of a meter without a clock object is set to the moment, and each object is offered its step.
    At(Moment),
    /// `tick N`: so many seconds pass, 1 to 3600, and at each of them each object is offered its step.
    Ticks(u16),
    /// Anything else, and why.
    Unreadable(Reason),
}

const HASH: u8 = b'#';

const RETURN: u8 = b'\r';

const SPACE: u8 = b' ';

const BYTE_ORDER_MARK: &[u8] = b"\xEF\xBB\xBF";

/// The words that begin a step of the meter itself. No client has such a name, but for `tick` in version 1.
const INPUT: &[u8] = b"in";

const EVALUATE: &[u8] = b"eval";

const AT: &[u8] = b"at";

const TICK: &[u8] = b"tick";

/// What a line says; the byte that ends it is no part of it. An APDU is decoded into the room, whatever it holds. The only
/// error is want of memory.
#[inline(always)]
pub fn read_line<'a>(
    alloc: Global,
    plan: &Plan,
    line: &[u8],
    room: &'a mut Vec<u8>,
) -> Result<Line<'a>, Memory>
    ensures { IfOk result (λ x. x ≡ line_of plan.now line.now) }
{
    let Some((first, _)) = line.split_first() else {
        return Ok(Line::Skipped);
    };
    if *first == HASH {
        return Ok(Line::Skipped);
    }
    let said = said_at(alloc, plan, line, first_space(line), room)?;
    if ends_in_return(line) {
        return Ok(with_return(said));
    }
    Ok(said)
}

/// Whether the byte 0D ends the text, as some editors put it before a newline.
fn ends_in_return(text: &[u8]) -> bool
    ensures { result ≡ spec.ends_in_return text.now }
{
    match text.last() {
        Some(last) => *last == RETURN,
        None => false,
    }
}

/// What a line says that such a byte ends: of an unreadable one it is told as the reason.
fn with_return(said: Line<'_>) -> Line<'_>
    ensures { result ≡ spec.with_return true said.entry }
{
    match said {
        Line::Unreadable(_) => Line::Unreadable(Reason::Return),
        _ => said,
    }
}

/// The place of the first space.
pub fn first_space(text: &[u8]) -> Option<usize>
    ensures first { result ≡ spec.first_space text.now }
    ensures within { IfSome result (λ k. k < length text.now) }
{
    text.iter().position(|b| *b == SPACE)
}

/// What a line says that has its first space at this place.
#[inline(always)]
fn said_at<'a>(
    alloc: Global,
    plan: &Plan,
    line: &[u8],
    space: Option<usize>,
    room: &'a mut Vec<u8>,
) -> Result<Line<'a>, Memory>
    requires { IfSome space (λ k. k < length line.now) }
    ensures { IfOk result (λ x. x ≡ spec.said_at plan.now line.now space) }
{
    let Some(space) = space else {
        return Ok(Line::Unreadable(Reason::Short));
    };
    said_by(alloc, plan, &line[..space], &line[space + 1..], room)
}

/// What a line says by its first word and what follows the space.
#[inline(always)]
fn said_by<'a>(
    alloc: Global,
    plan: &Plan,
    word: &[u8],
    text: &[u8],
    room: &'a mut Vec<u8>,
) -> Result<Line<'a>, Memory>
    ensures { IfOk result (λ x. x ≡ spec.said_by plan.now word.now text.now) }
{
    if word == INPUT {
        input_at(alloc, plan, text, first_space(text))
    } else if word == EVALUATE {
        Ok(evaluation_of(name_in(text)))
    } else if word == AT {
        Ok(moment_at(plan, Moment::read_bytes(text).ok()))
    } else if begins_ticks(plan, word) {
        Ok(ticks_of(seconds_in(text)))
    } else {
        asked_by(plan.client_named(word), word, text, room)
    }
}

/// What follows `in`, with its first space at this place.
fn input_at(
    alloc: Global,
    plan: &Plan,
    text: &[u8],
    space: Option<usize>,
) -> Result<Line<'static>, Memory>
    requires { IfSome space (λ k. k < length text.now) }
    ensures { IfOk result (λ x. x ≡ spec.input_at plan.now text.now space) }
{
    let Some(space) = space else {
        return Ok(Line::Unreadable(Reason::Short));
    };
    let name = name_in(&text[..space]);
    let value = value_in(alloc, &text[space + 1..])?;
    Ok(input_of(plan, name, value))
}

/// What is said by the name and the value of an input, if they are there.
fn input_of(plan: &Plan, name: Option<LogicalName>, value: Option<Data>) -> Line<'static>
    ensures { result ≡ spec.input_of plan.now name (option_map tree value) }
{
    match (name, value) {
        (Some(name), Some(value)) => Line::Input {
            cell: input_cell(plan, name),
            value,
        },
        (None, _) => Line::Unreadable(Reason::Name),
        (Some(_), None) => Line::Unreadable(Reason::Value),
    }
}

/// The cell that an input goes to: attribute 2 of the object with this name. Where there is none it may be that of any
/// class, for the input then changes nothing.
pub fn input_cell(plan: &Plan, name: LogicalName) -> CellRef
    ensures { result ≡ spec.input_cell plan.now name }
{
    let class_id = match plan.object_at(&name) {
        Some(object) => object.part().class_id(),
        None => 1,
    };
    CellRef {
        class_id,
        name,
        index: 2,
    }
}

/// What is said by the name of an evaluation, if it is there.
fn evaluation_of(name: Option<LogicalName>) -> Line<'static>
    ensures { result ≡ spec.evaluation_of name }
{
    match name {
        Some(name) => Line::Evaluate(name),
        None => Line::Unreadable(Reason::Name),
    }
}

/// What is said by a moment, if it is there.
fn moment_of(moment: Option<Moment>) -> Line<'static>
    ensures { result ≡ spec.moment_of moment }
{
    match moment {
        Some(moment) => Line::At(moment),
        None => Line::Unreadable(Reason::Moment),
    }
}

/// What is said by a moment, if it is there, over this plan.
fn moment_at(plan: &Plan, moment: Option<Moment>) -> Line<'static>
    ensures { result ≡ spec.moment_at (clock_object plan.now) moment }
{
    match plan.clock() {
        None => moment_of(moment),
        Some(_) => Line::Unreadable(Reason::Clock),
    }
}

/// Whether the word begins a line of seconds that pass, over this plan.
fn begins_ticks(plan: &Plan, word: &[u8]) -> bool
    ensures { result ≡ spec.begins_ticks plan.now word.now }
{
    word == TICK && plan.version() == 2
}

/// How many seconds a text lets pass, if it is a number from 1 to 3600.
fn seconds_in(text: &[u8]) -> Option<u16>
    ensures { result ≡ words.seconds_in text.now }
{
    let seconds = number_in(u64::from(TICK_SECONDS), text)?;
    if seconds >= 1 {
        Some(seconds as u16)
    } else {
        None
    }
}

/// What is said by a number of seconds, if it is there.
fn ticks_of(seconds: Option<u16>) -> Line<'static>
    ensures { result ≡ spec.ticks_of seconds }
{
    match seconds {
        Some(seconds) => Line::Ticks(seconds),
        None => Line::Unreadable(Reason::Seconds),
    }
}

/// What a line says by its client, if the plan knows it by the word, and the hex digits behind the space.
#[inline(always)]
fn asked_by<'a>(
    client: Option<u8>,
    word: &[u8],
    text: &[u8],
    room: &'a mut Vec<u8>,
) -> Result<Line<'a>, Memory>
    ensures { IfOk result (λ x. x ≡ spec.asked_by client word.now text.now) }
{
    let Some(client) = client else {
        return Ok(Line::Unreadable(client_fault(word)));
    };
    if decode(text, room)? {
        Ok(ask_of(client, room))
    } else {
        Ok(Line::Unreadable(digits_fault(text)))
    }
}

/// Whether a byte order mark stands in front of the text, as some editors put it there.
fn begins_with_mark(text: &[u8]) -> bool
    ensures { result ≡ spec.begins_with_mark text.now }
{
    behind(BYTE_ORDER_MARK, text).is_some()
}

/// Why a word is no client's name.
fn client_fault(word: &[u8]) -> Reason
    ensures { result ≡ spec.client_fault word.now }
{
    if begins_with_mark(word) {
        Reason::Mark
    } else {
        Reason::Client
    }
}

/// Whether a text begins as what a client asks does in words.
fn begins_words(text: &[u8]) -> bool
    ensures { result ≡ spec.begins_words text.now }
{
    behind(b"get ", text).is_some()
        || behind(b"set ", text).is_some()
        || behind(b"act ", text).is_some()
        || behind(b"apdu ", text).is_some()
}

/// Why hex digits are none.
fn digits_fault(text: &[u8]) -> Reason
    ensures { result ≡ spec.digits_fault text.now }
{
    if begins_words(text) {
        Reason::Words
    } else if text.len() % 2 == 1 {
        Reason::OddDigits
    } else {
        Reason::Digits
    }
}

/// Decodes hex digits in either case into the room, whatever it holds, and says whether they are that.
#[inline(always)]
fn decode(text: &[u8], room: &mut Vec<u8>) -> Result<bool, Memory>
    ensures { IfOk result (λ read. cond read (Some room.new.items) None
        ≡ result_ok (decode_of text.now)) }
{
    if text.len() % 2 == 1 {
        return Ok(false);
    }
    room.resize(text.len() / 2, 0)?;
    Ok(take_digits(text, room.as_mut_slice()))
}

/// What a line says by its client and the bytes of its APDU.
#[inline(always)]
fn ask_of(client: u8, apdu: &[u8]) -> Line<'_>
    ensures { result ≡ spec.ask_of client apdu.now }
{
    if apdu.is_empty() {
        return Line::Unreadable(Reason::Short);
    }
    Line::Ask(Ask::new(client, apdu))
}
