//! Logical names as texts.

ghost use Rattle.std.specs.Prelude.{◌≡◌};
ghost use Rattle.value_text.specs.Texts as spec;

use cosem_data::name::LogicalName;

/// The logical name that a text is, written A.B.C.D.E.F, if it is one (IEC 62056-6-2, logical_name).
pub fn name_in(text: &[u8]) -> Option<LogicalName>
    ensures { result ≡ spec.name_in text.now }
{
    LogicalName::read_bytes(text).ok()
}
