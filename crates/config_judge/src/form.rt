//! The forms of names.

ghost use Rattle.std.specs.Prelude.{◌≡◌, is_some};
ghost use Rattle.value_text.specs.Texts.{name_in};

use cosem_data::name::LogicalName;

/// Whether a text is a logical name: six numbers from 0 to 255 without leading zeros, joined by dots (IEC 62056-6-2,
/// logical_name).
pub(crate) fn is_logical_name(text: &str) -> bool
    ensures { result ≡ is_some (name_in text.now) }
{
    LogicalName::read(text).is_ok()
}
