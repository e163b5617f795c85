//! Selective access to a buffer by entry (IEC 62056-6-2, Profile generic, entry_descriptor).
ghost use Rattle.std.specs.Prelude.{◌≡◌, option_map};
ghost use Rattle.meter_theory.specs.Rights as rights;
ghost use Rattle.object_model.specs.ArgumentView.{argument_of};
ghost use Rattle.class_profile.specs.SelectionView.{descriptor_view};

use class_profile::selection::EntryDescriptor;
use object_model::argument::Argument;

/// The entry descriptor that a selector's parameter is, or None where it is none.
pub fn descriptor_in(parameter: &Argument) -> Option<EntryDescriptor>
    ensures { option_map descriptor_view result ≡ rights.descriptor_in (argument_of parameter.now) }
{
    match parameter {
        Argument::Value(value) => EntryDescriptor::of(value),
        _ => None,
    }
}
