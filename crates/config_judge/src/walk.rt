//! Walks over the elements of an array, each at its place, as `object[6]`, by a closure that notes the faults of one after those
//! that were found before. The error of each walk is that memory was refused.

ghost use Rattle.std.specs.Prelude.{◌≡◌, ◌++◌, List, IfOk, OnOk, codes, map, string_bytes};
ghost use Rattle.config_text.specs.Fault.{Fault};
ghost use Rattle.config_text.specs.Parts.{Text, ObjectText};
ghost use Rattle.config_text.specs.Refusals.{Finds};
ghost use Rattle.config_rules.specs.Passes.{are_found, both_sets};
ghost use Rattle.config_rules.specs.Walks as spec;

use config_text::fault::{ConfigFault, PlacedFault};
use config_text::parts::{ConfigParts, ObjectParts, SetsParts};
use config_text::place::Place;
use config_text::refusal::refuse;
use cosem_data::memory::Memory;
use std::alloc::Global;

/// Notes the faults of each item in turn, at its place below the name.
#[tactic(auto, unfolding(config_rules::specs::Walks::each_from))]
pub(crate) fn each<T, F: Fn(&mut Vec<PlacedFault>, &Place<'_>, &T) -> Result<(), Memory>>(
    faults: &mut Vec<PlacedFault>,
    name: &Place<'_>,
    items: &[T],
    judge: F,
) -> Result<(), Memory>
    requires { F.IsAlwaysCallable judge }
    ensures { (says : Text → T → List Fault)
        → ((before : _) (at : _) (x : _) (r : _) (after : _) → F.post judge before at x r after
        → OnOk r (after.now.items ≡ before.now.items ++ says at.now x.now))
        → OnOk result (faults.new.items ≡ faults.old.items ++ spec.each says name.now items.now) }
{
    for (i, item) in items.iter().enumerate() {
        judge(faults, &(&*name).element(i), item)?;
    }
    Ok(())
}

/// Notes the faults of each item in turn, beside those before it, at its place below the name.
#[tactic(auto, unfolding(config_rules::specs::Walks::each_after))]
pub(crate) fn each_new<T, F: Fn(&mut Vec<PlacedFault>, &[T], &Place<'_>, &T) -> Result<(), Memory>>(
    faults: &mut Vec<PlacedFault>,
    name: &Place<'_>,
    items: &[T],
    judge: F,
) -> Result<(), Memory>
    requires { F.IsAlwaysCallable judge }
    ensures { (says : List T → Text → T → List Fault)
        → ((before : _) (earlier : _) (at : _) (x : _) (r : _) (after : _)
        → F.post judge before earlier at x r after
        → OnOk r (after.now.items ≡ before.now.items ++ says earlier.now at.now x.now))
        → OnOk result (faults.new.items ≡ faults.old.items ++ spec.each_new says name.now items.now) }
{
    for (i, item) in items.iter().enumerate() {
        judge(faults, &items[..i], &(&*name).element(i), item)?;
    }
    Ok(())
}

/// Notes the faults of each text in turn, at its place below the name.
#[tactic(auto, unfolding(config_rules::specs::Walks::each_from))]
fn each_text<F: Fn(&mut Vec<PlacedFault>, &Place<'_>, &str) -> Result<(), Memory>>(
    faults: &mut Vec<PlacedFault>,
    name: &Place<'_>,
    texts: &[String],
    judge: F,
) -> Result<(), Memory>
    requires { F.IsAlwaysCallable judge }
    ensures { (says : Text → Text → List Fault)
        → ((before : _) (at : _) (x : _) (r : _) (after : _) → F.post judge before at x r after
        → OnOk r (after.now.items ≡ before.now.items ++ says at.now x.now))
        → OnOk result (faults.new.items ≡ faults.old.items
        ++ spec.each says name.now (map string_bytes texts.now)) }
{
    for (i, text) in texts.iter().enumerate() {
        judge(faults, &(&*name).element(i), text.as_str())?;
    }
    Ok(())
}

/// Notes the faults of each client of the sets at a place.
pub(crate) fn both_sets<F: Fn(&mut Vec<PlacedFault>, &Place<'_>, &str) -> Result<(), Memory>>(
    faults: &mut Vec<PlacedFault>,
    at: &Place<'_>,
    sets: &SetsParts,
    judge: F,
) -> Result<(), Memory>
    requires { F.IsAlwaysCallable judge }
    ensures { (says : Text → Text → List Fault)
        → ((before : _) (place : _) (x : _) (r : _) (after : _) → F.post judge before place x r after
        → OnOk r (after.now.items ≡ before.now.items ++ says place.now x.now))
        → OnOk result (faults.new.items ≡ faults.old.items ++ both_sets says at.now sets.now) }
{
    each_text(
        faults,
        &at.below(".influence"),
        &sets.influence,
        |faults, at, x| judge(faults, at, x),
    )?;
    each_text(
        faults,
        &at.below(".learn"),
        &sets.learn,
        |faults, at, x| judge(faults, at, x),
    )
}

/// Judges each object of a configuration, at its place.
///
/// # Errors
/// All faults that the closure notes.
pub(crate) fn judge_objects<
    F: Fn(&mut Vec<PlacedFault>, &Place<'_>, &ObjectParts) -> Result<(), Memory>,
>(alloc: Global, config: &ConfigParts, judge: F) -> Result<(), ConfigFault>
    requires { F.IsAlwaysCallable judge }
    ensures { (says : Text → ObjectText → List Fault)
        → ((before : _) (at : _) (x : _) (r : _) (after : _) → F.post judge before at x r after
        → OnOk r (after.now.items ≡ before.now.items ++ says at.now x.now))
        → Finds result (spec.each says (codes "object") config.now.objects) }
{
    let mut faults = Vec::new(alloc);
    each(
        &mut faults,
        &Place::top(alloc, "object"),
        &config.objects,
        judge,
    )?;
    refuse(faults)
}

/// Whether a pass found faults. The error is that memory was refused.
pub(crate) fn finds_any(found: Result<(), ConfigFault>) -> Result<bool, Memory>
    ensures { (faults : List Fault) → Finds found faults → IfOk result (λ any. any ≡ are_found faults) }
{
    match found {
        Ok(()) => Ok(false),
        Err(ConfigFault::Found { .. }) => Ok(true),
        Err(ConfigFault::Memory) => Err(Memory),
    }
}
