//! The walk over a text to where steps lead.

ghost use Rattle.std.specs.Prelude.{◌≡◌, ◌-◌, List, length, drop, slice_get, IsSomeAnd, IfOk, IfSome};
ghost use Rattle.std.specs.Str.{IsCharBoundary};
ghost use Rattle.config_places.specs.Spots.{IsWithin, IsNamed, IsLedTo};

use crate::along::{along, into_last};
use crate::naming::named_value;
use crate::spot::{Spot, Step};
use crate::values::{after_line, after_value};
use cosem_data::memory::Memory;
use std::alloc::{AllocError, Global};
use toml_parser::text::{first, skip, skip_blank, skip_ws};
use toml_parser::{ErrorKind, Key, ParseError, dotted_key};

/// A place in a text that is on the way to what is wanted.
#[derive(Clone, Copy, Drop)]
struct Place<'t> {
    /// How many of the wanted steps lead there.
    met: usize,
    /// Whether it is named itself, and not in passing.
    is_named: bool,
    /// The text from its key or its header on.
    key: &'t str,
    /// The text from its value on, where it is named itself.
    value: &'t str,
}

impl<'t> Place<'t> {
    /// The text from its value on, or from where it is named in passing.
    fn within(self) -> &'t str {
        if self.is_named { self.value } else { self.key }
    }
}

/// How far a walk has come.
#[derive(Drop)]
struct Walk<'t, 's> {
    wanted: &'s [Step],
    /// How many elements the array of tables has to which so many of the wanted steps lead.
    counts: Vec<usize>,
    /// The furthest place so far.
    best: Place<'t>,
    /// How many of the wanted steps lead to the table or the array that is read, if any do.
    inside: Option<usize>,
    /// What closes it; 0 for the end of the text.
    closing: u8,
    /// How many of its elements are before.
    index: usize,
}

/// All parts of a key.
fn parts(key: Key) -> Result<Vec<String>, AllocError> {
    let Key { mut path, last } = key;
    path.push(last)?;
    Ok(path)
}

/// Gives the array of tables to which so many of the wanted steps lead one element more.
fn grow(counts: &mut Vec<usize>, met: usize) {
    if met < counts.len() {
        counts[met] = counts[met].saturating_add(1);
    }
}

impl<'t> Walk<'t, '_> {
    /// Whether what is wanted is named itself.
    fn is_over(&self) -> bool {
        self.best.is_named && self.best.met == self.wanted.len()
    }

    /// Keeps a place that is further, or that is named itself where the furthest is named in passing.
    fn note(&mut self, place: Place<'t>) {
        let best = self.best;
        if place.met > best.met || (place.met == best.met && place.is_named && !best.is_named) {
            self.best = place;
        }
    }

    /// Reads a header; `rest` is what follows its first bracket.
    fn header(&mut self, alloc: Global, at: &'t str, rest: &'t str) -> Result<&'t str, ParseError> {
        let inner = rest.strip_prefix("[");
        let (key, rest) = dotted_key(alloc, skip_ws(inner.unwrap_or(rest)))?;
        let (met, leads) = along(self.wanted, &self.counts, 0, &parts(key)?);
        if leads && inner.is_some() {
            grow(&mut self.counts, met);
        }
        let inside = if leads {
            into_last(self.wanted, &self.counts, met)
        } else {
            None
        };
        self.inside = inside;
        self.note(Place {
            met: inside.unwrap_or(met),
            is_named: inside.is_some(),
            key: at,
            value: at,
        });
        Ok(after_line(rest))
    }

    /// The place of an element of the array.
    fn element(&mut self, at: &'t str) -> Place<'t> {
        let index = self.index;
        self.index = index.saturating_add(1);
        let met = self.inside.unwrap_or(0);
        let is_named =
            matches!(self.wanted.get(met), Some(Step::Element(wanted)) if *wanted == index);
        Place {
            met: if is_named { met + 1 } else { met },
            is_named,
            key: at,
            value: at,
        }
    }

    /// The place of a key with its value in the table.
    fn pair(&self, alloc: Global, at: &'t str) -> Result<Place<'t>, ParseError> {
        let (key, rest) = dotted_key(alloc, at)?;
        if first(rest) != b'=' {
            return Err(ParseError::at(ErrorKind::MissingEquals, rest));
        }
        let (met, is_named) = match self.inside {
            Some(met) => along(self.wanted, &self.counts, met, &parts(key)?),
            None => (0, false),
        };
        Ok(Place {
            met,
            is_named,
            key: at,
            value: skip_ws(skip(rest, 1)),
        })
    }

    /// Goes on inside a value that is on the way: nothing of what is wanted is after it.
    fn enter(&mut self, place: Place<'t>) -> Result<&'t str, ParseError> {
        self.closing = match first(place.value) {
            b'[' => b']',
            b'{' => b'}',
            _ => return Err(ParseError::at(ErrorKind::Extend, place.value)),
        };
        self.inside = Some(place.met);
        self.index = 0;
        Ok(skip(place.value, 1))
    }

    /// Reads an element, or a key with its value.
    fn entry(&mut self, alloc: Global, at: &'t str) -> Result<&'t str, ParseError> {
        let place = if self.closing == b']' {
            self.element(at)
        } else {
            self.pair(alloc, at)?
        };
        self.note(place);
        if place.is_named && place.met < self.wanted.len() {
            return self.enter(place);
        }
        let rest = after_value(alloc, place.value)?;
        Ok(if first(rest) == b',' {
            skip(rest, 1)
        } else {
            rest
        })
    }

    /// Reads what is next.
    fn step(&mut self, alloc: Global, at: &'t str) -> Result<&'t str, ParseError> {
        match at.strip_prefix("[") {
            Some(rest) if self.closing == 0 => self.header(alloc, at, rest),
            _ => self.entry(alloc, at),
        }
    }
}

/// A text without the byte order mark before it.
fn skip_bom(s: &str) -> &str {
    s.strip_prefix("\u{feff}").unwrap_or(s)
}

/// The furthest place to which wanted steps lead in a text.
fn furthest<'t>(alloc: Global, text: &'t str, wanted: &[Step]) -> Result<Place<'t>, ParseError> {
    let root = Place {
        met: 0,
        is_named: true,
        key: text,
        value: text,
    };
    let mut walk = Walk {
        wanted,
        counts: vec![in alloc; 0usize; wanted.len()]?,
        best: root,
        inside: Some(0),
        closing: 0,
        index: 0,
    };
    let mut rest = skip_bom(text);
    for _entry in 0..text.len() {
        let at = skip_blank(rest, true);
        if walk.is_over() || first(at) == walk.closing {
            break;
        }
        rest = walk.step(alloc, at)?;
    }
    Ok(walk.best)
}

/// How many bytes of a text are before an end of it.
fn before(text: &str, end: &str) -> Option<usize>
    ensures boundary { IfSome result (IsCharBoundary text.now) }
    ensures rest { IfSome result (λ bytes. drop bytes text.now ≡ end.now) }
{
    Some(text.strip_suffix(end)?.len())
}

/// Where a key and its value are, of which a text has these ends.
fn found(text: &str, key: &str, value: &str) -> Option<Spot>
    ensures within { IfSome result (IsWithin text.now) }
    ensures named { (steps : List Step)
        → IsSomeAnd (slice_get steps (length steps - 1)) (λ step. IsNamed step key.now value.now)
        → IfSome result (IsLedTo text.now steps) }
{
    Some(Spot::Found {
        key: before(text, key)?,
        value: before(text, value)?,
    })
}

/// Where steps lead in a text.
fn spot_in(alloc: Global, text: &str, steps: &[Step]) -> Result<Option<Spot>, ParseError>
    ensures within { IfOk result (λ spot. IfSome spot (IsWithin text.now)) }
    ensures named { IfOk result (λ spot. IfSome spot (IsLedTo text.now steps.now)) }
{
    let Some(last) = steps.last() else {
        return Ok(None);
    };
    let place = furthest(alloc, text, steps)?;
    match steps.len().checked_sub(place.met) {
        Some(0) => match named_value(alloc, place.key, last, place.is_named)? {
            Some(value) => Ok(found(text, place.key, value)),
            None => Ok(None),
        },
        Some(1) => match before(text, place.within()) {
            Some(within) => Ok(Some(Spot::Missing { within })),
            None => Ok(None),
        },
        _ => Ok(None),
    }
}

/// Where steps lead in a text: to a key or an element, or to none in a table or an array to which all but the last of them lead. None where
/// there are no steps, where they lead to nothing even before the last, and where the text on the way isn't TOML.
///
/// # Errors
/// Memory was refused.
pub fn find(alloc: Global, text: &str, steps: &[Step]) -> Result<Option<Spot>, Memory>
    ensures within { IfOk result (λ spot. IfSome spot (IsWithin text.now)) }
    ensures named { IfOk result (λ spot. IfSome spot (IsLedTo text.now steps.now)) }
{
    match spot_in(alloc, text, steps) {
        Ok(spot) => Ok(spot),
        Err(ParseError::OutOfMemory) => Err(Memory),
        Err(ParseError::At(..)) => Ok(None),
    }
}
