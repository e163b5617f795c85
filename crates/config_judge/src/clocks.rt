//! C21: a second clock.
ghost use Rattle.std.specs.Prelude.{◌≡◌, ◌&&◌};
ghost use Rattle.std.specs.List.{list_any};
ghost use Rattle.config_text.specs.Refusals.{Finds};
ghost use Rattle.config_rules.specs.Passes as passes;

use crate::walk::each_new;
use config_text::cause::Cause;
use config_text::fault::ConfigFault;
use config_text::noting::note_if;
use config_text::parts::{ConfigParts, ObjectParts};
use config_text::place::Place;
use config_text::refusal::refuse;
use meter_theory::classes::{Class, is_of_class};
use std::alloc::Global;

fn is_clock(object: &ObjectParts) -> bool
    ensures { result ≡ passes.is_clock object.now }
{
    is_of_class(object.class_id, Class::Clock)
}

fn has_clock(objects: &[ObjectParts]) -> bool
    ensures { result ≡ list_any passes.is_clock objects.now }
{
    objects.iter().any(|object| is_clock(object))
}

/// Whether an object is a clock, and one of those before it too.
fn is_second(earlier: &[ObjectParts], object: &ObjectParts) -> bool
    ensures { result ≡ (passes.is_clock object.now && list_any passes.is_clock earlier.now) }
{
    is_clock(object) && has_clock(earlier)
}

/// Judges whether there is one clock at most.
///
/// # Errors
/// C21 at each clock after the first.
#[tactic(auto, unfolding(config_rules::specs::Passes::new_clocks))]
pub(crate) fn new_clocks(alloc: Global, config: &ConfigParts) -> Result<(), ConfigFault>
    ensures { Finds result (passes.new_clocks config.now) }
{
    let mut faults = Vec::new(alloc);
    each_new(
        &mut faults,
        &Place::top(alloc, "object"),
        &config.objects,
        |faults, earlier, at, object| {
            note_if(
                faults,
                Cause::SecondClock,
                at,
                ".class",
                is_second(earlier, object),
            )
        },
    )?;
    refuse(faults)
}
