//! The menus of a configuration, and C22: an alternative that is what is configured, or an earlier one.
ghost use Rattle.std.specs.Prelude.{◌≡◌, ◌++◌, OnOk, []};
ghost use Rattle.std.specs.List.{list_any};
ghost use Rattle.std.specs.Option.{unwrap_or};
ghost use Rattle.config_text.specs.BodyView.{body_text};
ghost use Rattle.config_text.specs.Refusals.{Finds};
ghost use Rattle.config_rules.specs.Names as names;
ghost use Rattle.config_rules.specs.Passes as passes;
ghost use Rattle.config_judge.specs.Menus.{menu_of};

use crate::walk::{each_new, judge_objects};
use config_text::cause::Cause;
use config_text::fault::{ConfigFault, PlacedFault};
use config_text::noting::note_if;
use config_text::parts::{
    AlternativeParts, BodyParts, CaptureParts, ConfigParts, ScriptRefParts, TargetParts,
};
use config_text::place::Place;
use cosem_data::memory::Memory;
use std::alloc::Global;

/// Whether an object has the key of a menu.
pub(crate) fn has_menu(body: &BodyParts) -> bool
    ensures { result ≡ names.has_menu_key (body_text body.now) }
{
    match body {
        BodyParts::ProfileGeneric { menu, .. } => menu.is_some(),
        BodyParts::SingleActionSchedule { menu, .. } => menu.is_some(),
        _ => false,
    }
}

/// The alternatives of a menu beside what is configured; none without one.
pub(crate) fn menu_in<T: Drop>(menu: &Option<Vec<T>>) -> &[T]
    ensures { result.now ≡ unwrap_or (menu_of menu.now) [] }
{
    match menu {
        Some(alternatives) => alternatives.as_slice(),
        None => &[],
    }
}

/// Whether two targets are one.
pub(crate) fn same_target(one: &TargetParts, other: &TargetParts) -> bool
    ensures { result ≡ passes.same_target one.now other.now }
{
    one.object.as_str() == other.object.as_str() && one.index == other.index
}

/// Whether two profiles would capture the same attributes in the same order.
fn same_captures(one: &[CaptureParts], other: &[CaptureParts]) -> bool
    ensures { result ≡ passes.same_captures one.now other.now }
{
    if one.len() != other.len() {
        return false;
    }
    for i in 0..one.len() {
        let (x, y) = (&one[i], &other[i]);
        if !same_target(&x.target, &y.target) {
            return false;
        }
    }
    true
}

/// Whether one of the alternatives captures the same attributes in the same order.
fn has_captures(earlier: &[AlternativeParts], captures: &[CaptureParts]) -> bool
    ensures { result ≡ list_any (λ e. passes.same_captures e captures.now) earlier.now }
{
    earlier.iter().any(|e| same_captures(&e.captures, captures))
}

/// Whether two scripts are one.
fn same_script(one: &ScriptRefParts, other: &ScriptRefParts) -> bool
    ensures { result ≡ passes.same_script one.now other.now }
{
    one.table.as_str() == other.table.as_str()
        && (one.script <= other.script && other.script <= one.script)
}

/// Whether one of the alternatives is the script.
fn has_script(earlier: &[ScriptRefParts], script: &ScriptRefParts) -> bool
    ensures { result ≡ list_any (λ e. passes.same_script e script.now) earlier.now }
{
    earlier.iter().any(|e| same_script(e, script))
}

/// Notes that an alternative captures what is configured, or what an earlier one does, where it does.
fn new_captures(
    faults: &mut Vec<PlacedFault>,
    start: &[CaptureParts],
    earlier: &[AlternativeParts],
    at: &Place<'_>,
    alternative: &AlternativeParts,
) -> Result<(), Memory>
    ensures { OnOk result (faults.new.items ≡ faults.old.items
        ++ passes.new_alternative passes.same_captures start.now earlier.now at.now alternative.now) }
{
    let captures = alternative.captures.as_slice();
    let twice = same_captures(start, captures) || has_captures(earlier, captures);
    note_if(faults, Cause::AlternativeTwice, at, "", twice)
}

/// Notes that an alternative is the script that is configured, or an earlier one, where it is.
fn new_run(
    faults: &mut Vec<PlacedFault>,
    start: &ScriptRefParts,
    earlier: &[ScriptRefParts],
    at: &Place<'_>,
    script: &ScriptRefParts,
) -> Result<(), Memory>
    ensures { OnOk result (faults.new.items ≡ faults.old.items
        ++ passes.new_alternative passes.same_script start.now earlier.now at.now script.now) }
{
    let twice = same_script(start, script) || has_script(earlier, script);
    note_if(faults, Cause::AlternativeTwice, at, "", twice)
}

/// Notes the alternatives in an object's body that aren't new.
#[tactic(auto, unfolding(config_rules::specs::Passes::new_alternatives_in))]
fn new_alternatives_in(
    faults: &mut Vec<PlacedFault>,
    at: &Place<'_>,
    body: &BodyParts,
) -> Result<(), Memory>
    ensures { OnOk result (faults.new.items ≡ faults.old.items
        ++ passes.new_alternatives_in at.now (body_text body.now)) }
{
    match body {
        BodyParts::ProfileGeneric { capture, menu, .. } => {
            let start = capture.as_slice();
            let place = at.below(".capture_menu");
            each_new(faults, &place, menu_in(menu), |faults, earlier, at, x| {
                new_captures(faults, start, earlier, at, x)
            })
        }
        BodyParts::SingleActionSchedule { script, menu, .. } => {
            let place = at.below(".script_menu");
            each_new(faults, &place, menu_in(menu), |faults, earlier, at, x| {
                new_run(faults, script, earlier, at, x)
            })
        }
        _ => Ok(()),
    }
}

/// Judges the alternatives of menus.
///
/// # Errors
/// C22 at each alternative that is what is configured, or an earlier one.
#[tactic(auto, unfolding(config_rules::specs::Passes::new_alternatives))]
pub(crate) fn new_alternatives(alloc: Global, config: &ConfigParts) -> Result<(), ConfigFault>
    ensures { Finds result (passes.new_alternatives config.now) }
{
    judge_objects(
        alloc,
        config,
        |faults, at, object| new_alternatives_in(faults, at, &object.body),
    )
}
