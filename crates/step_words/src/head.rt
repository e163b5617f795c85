//! Reading the front of a step line, which words and hex have alike.
ghost use Rattle.std.specs.Prelude.{◌≡◌, is_some};
ghost use Rattle.value_words.specs.Stopping.{Reads};
ghost use Rattle.step_words.specs.StepLines as spec;

use crate::fault::Asked;
use crate::parts::{end_of, moment_of, name_of};
use crate::runs::{Run, run_of};
use meter_theory::limits::TICK_SECONDS;
use value_text::client_name::is_client_name;
use value_words::marks::mark_of;
use value_words::numbers::number_in;
use value_words::stop::{Stop, stop_at};

/// What stands behind the front of a step line.
#[derive(Clone, Copy)]
pub(crate) enum Head {
    /// The value of an input, behind `in NAME `.
    Input,
    /// What a client asks, behind its name and a space.
    Client,
    /// What a client named `tick` asks, behind its name and a space: anything but a number of seconds.
    NamedTick,
    /// Nothing: the front is the whole line, `eval NAME`, `at MOMENT` or `tick N`.
    Whole,
}

/// The words that begin a step of the meter itself.
const INPUT: &[u8] = b"in";

const EVALUATE: &[u8] = b"eval";

const AT: &[u8] = b"at";

const TICK: &[u8] = b"tick";

/// What stands behind `in`: the name of the input's object.
#[tactic(auto, unfolding(crate::specs::StepLines::input_at))]
fn input_of(text: &[u8]) -> Result<(Head, &[u8]), Stop<Asked>>
    ensures { Reads (λ x. (x.0, x.1.now)) result (spec.input_at text.now) }
{
    let rest = mark_of(Asked::Space, b" ", text)?;
    let (_, rest) = name_of(rest)?;
    let rest = mark_of(Asked::Space, b" ", rest)?;
    Ok((Head::Input, rest))
}

/// What stands behind `eval`: the name of a register monitor.
#[tactic(auto, unfolding(crate::specs::StepLines::evaluation_at))]
fn evaluation_of(text: &[u8]) -> Result<(Head, &[u8]), Stop<Asked>>
    ensures { Reads (λ x. (x.0, x.1.now)) result (spec.evaluation_at text.now) }
{
    let rest = mark_of(Asked::Space, b" ", text)?;
    let (_, rest) = name_of(rest)?;
    end_of(rest)?;
    Ok((Head::Whole, rest))
}

/// What stands behind `at`: a moment.
#[tactic(auto, unfolding(crate::specs::StepLines::offer_at))]
fn offer_of(text: &[u8]) -> Result<(Head, &[u8]), Stop<Asked>>
    ensures { Reads (λ x. (x.0, x.1.now)) result (spec.offer_at text.now) }
{
    let rest = mark_of(Asked::Space, b" ", text)?;
    moment_of(rest)?;
    Ok((Head::Whole, b""))
}

/// Whether a text is how many seconds pass: 1 to 3600 as a decimal number without leading zeros.
pub(crate) fn is_seconds(text: &[u8]) -> bool
    ensures { result ≡ is_some (spec.seconds_in text.now) }
{
    match number_in(u64::from(TICK_SECONDS), text) {
        Some(seconds) => seconds >= 1,
        None => false,
    }
}

/// What stands behind `tick`: how many seconds pass, or what a client with this name asks.
#[tactic(auto, unfolding(crate::specs::StepLines::tick_at))]
fn tick_of(text: &[u8]) -> Result<(Head, &[u8]), Stop<Asked>>
    ensures { Reads (λ x. (x.0, x.1.now)) result (spec.tick_at text.now) }
{
    let rest = mark_of(Asked::Space, b" ", text)?;
    if is_seconds(rest) {
        Ok((Head::Whole, b""))
    } else {
        Ok((Head::NamedTick, rest))
    }
}

/// What stands behind the name of a client.
#[tactic(auto, unfolding(crate::specs::StepLines::client_at))]
fn client_of(text: &[u8]) -> Result<(Head, &[u8]), Stop<Asked>>
    ensures { Reads (λ x. (x.0, x.1.now)) result (spec.client_at text.now) }
{
    Ok((Head::Client, mark_of(Asked::Space, b" ", text)?))
}

/// The front of a step line.
#[tactic(auto, unfolding(crate::specs::StepLines::head_at))]
pub(crate) fn head_of(text: &[u8]) -> Result<(Head, &[u8]), Stop<Asked>>
    ensures { Reads (λ x. (x.0, x.1.now)) result (spec.head_at text.now) }
{
    let (word, rest) = run_of(Run::Word, text);
    if word == INPUT {
        input_of(rest)
    } else if word == EVALUATE {
        evaluation_of(rest)
    } else if word == AT {
        offer_of(rest)
    } else if word == TICK {
        tick_of(rest)
    } else if is_client_name(word) {
        client_of(rest)
    } else {
        Err(stop_at(text, Asked::FirstWord))
    }
}
