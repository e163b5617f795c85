//! The kinds of the values with which the cells of a configuration start.
ghost use Rattle.std.specs.Prelude.{◌≡◌};
ghost use Rattle.cosem_data.specs.View.{tree};
ghost use Rattle.config_text.specs.BodyView.{body_text};
ghost use Rattle.config_rules.specs.Values as spec;
ghost use Rattle.value_text.specs.Texts.{value_in};

use crate::directory::Directory;
use crate::value::kind_in;
use config_text::hex_value::HexValue;
use config_text::parts::{BodyParts, TargetParts};
use cosem_data::data::Data;
use cosem_data::kind::Kind;

/// The kind of the value with which an object of the class Data or Register starts, none of another and where it can't be read.
pub(crate) fn start_kind_in(body: &BodyParts) -> Option<Kind>
    ensures { result ≡ spec.start_kind_in (body_text body.now) }
{
    match body {
        BodyParts::Data { value } | BodyParts::Register { value, .. } => kind_in(value),
        _ => None,
    }
}

/// The kind of the value with which the object that is named starts; none where there is no such object, where it has no value of
/// its own, and where its value can't be read.
pub(crate) fn kind_at(directory: &Directory<'_>, target: &TargetParts) -> Option<Kind>
    ensures { result ≡ spec.kind_named directory.now.config.now target.now.object }
{
    match directory.object(target.object.as_str()) {
        Some(object) => start_kind_in(&object.body),
        None => None,
    }
}

/// Whether a value is of a kind; nothing is judged by a kind that isn't known.
pub(crate) fn has_kind(kind: Option<Kind>, value: &Data) -> bool
    ensures { result ≡ spec.has_kind kind (tree value.now) }
{
    match kind {
        Some(kind) => value.kind() == kind,
        None => true,
    }
}

/// Whether a text is a value of a kind.
pub(crate) fn is_of_kind(kind: Option<Kind>, hex: &HexValue) -> bool
    ensures { result ≡ spec.is_of_kind kind (value_in hex.now) }
{
    match hex.value() {
        Some(value) => has_kind(kind, value),
        None => false,
    }
}

/// Whether a kind is known and that of a number.
pub(crate) fn is_number(kind: Option<Kind>) -> bool
    ensures { result ≡ spec.is_number kind }
{
    match kind {
        Some(kind) => kind.is_number(),
        None => false,
    }
}

/// Whether a kind isn't known, or is that of a number.
pub(crate) fn may_be_number(kind: Option<Kind>) -> bool
    ensures { result ≡ spec.may_be_number kind }
{
    kind.is_none() || is_number(kind)
}

/// A kind of numbers, none where it is another one: by a kind that is a fault itself nothing is judged.
pub(crate) fn number_kind(kind: Option<Kind>) -> Option<Kind>
    ensures { result ≡ spec.number_kind kind }
{
    match kind {
        Some(kind) if kind.is_number() => Some(kind),
        _ => None,
    }
}
