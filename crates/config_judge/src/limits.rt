//! C16: more than a limit allows.
ghost use Rattle.std.specs.Prelude.{◌≡◌, ◌++◌, ◌||◌, OnOk, [], IfOk, Some, codes, length, nat_lt, not};
ghost use Rattle.std.specs.Option.{unwrap_or};
ghost use Rattle.meter_theory.specs.Value.{is_within_limits};
ghost use Rattle.config_text.specs.BodyView.{body_text};
ghost use Rattle.config_text.specs.Refusals.{Finds};
ghost use Rattle.config_text.specs.Fault.{fault_where};
ghost use Rattle.config_text.specs.declared.cause.Cause.TheVariants as causes;
ghost use Rattle.config_text.specs.declared.cause.Limit.TheVariants as of;
ghost use Rattle.config_rules.specs.Passes as passes;
ghost use Rattle.config_rules.specs.PlanOf.{thresholds_value, times_value};
ghost use Rattle.value_text.specs.Texts.{value_in};
ghost use Rattle.config_rules.specs.Walks as walks;
ghost use Rattle.config_judge.specs.Menus.{menu_of};

use crate::arrays::{times_of, values_of};
use crate::menus::menu_in;
use crate::walk::each;
use config_text::cause::{Cause, Limit};
use config_text::fault::{ConfigFault, PlacedFault};
use config_text::hex_value::{HexBytes, HexValue};
use config_text::noting::note_if;
use config_text::parts::{
    AlternativeParts, BodyParts, CaptureParts, ConfigParts, ScriptParts, UpDownParts,
};
use config_text::place::Place;
use config_text::refusal::refuse;
use cosem_class::judge::keeps_limits;
use cosem_data::data::{Data, Items};
use cosem_data::memory::Memory;
use meter_theory::limits::{
    ACTIONS, CAPTURE_OBJECTS, CLIENTS, EXECUTION_TIMES, MENU, OBJECTS, PROFILE_ENTRIES, SCRIPTS,
    THRESHOLDS,
};
use std::alloc::Global;

/// A number of elements against a limit.
fn at_most(
    faults: &mut Vec<PlacedFault>,
    what: Limit,
    at: &Place<'_>,
    limit: usize,
    number: usize,
) -> Result<(), Memory>
    ensures { OnOk result (faults.new.items ≡ faults.old.items
        ++ fault_where (causes.Limit what) at.now (nat_lt limit number)) }
{
    note_if(faults, Cause::Limit(what), at, "", limit < number)
}

/// Whether a text is no value, or one within the limits.
fn is_small(hex: &HexValue) -> bool
    ensures { result ≡ passes.is_small (value_in hex.now) }
{
    match hex.value() {
        Some(value) => keeps_limits(value),
        None => true,
    }
}

/// The value that a text is, against the limits.
fn small_value(
    faults: &mut Vec<PlacedFault>,
    at: &Place<'_>,
    key: &str,
    hex: &HexValue,
) -> Result<(), Memory>
    ensures { OnOk result (faults.new.items ≡ faults.old.items
        ++ passes.small_value (at.now ++ key.now) (Some hex.now)) }
{
    note_if(faults, Cause::Limit(Limit::Value), at, key, !is_small(hex))
}

/// Notes the sizes of a script that are past a limit.
#[tactic(auto, unfolding(config_rules::specs::Passes::script_limits))]
fn script_limits(
    faults: &mut Vec<PlacedFault>,
    at: &Place<'_>,
    script: &ScriptParts,
) -> Result<(), Memory>
    ensures { OnOk result (faults.new.items ≡ faults.old.items ++ passes.script_limits at.now script.now) }
{
    at_most(
        faults,
        Limit::Actions,
        &at.below(".action"),
        ACTIONS,
        script.actions.len(),
    )?;
    each(
        faults,
        &at.below(".action"),
        &script.actions,
        |faults, at, action| match &action.value {
            Some(hex) => small_value(faults, at, ".value", hex),
            None => Ok(()),
        },
    )
}

/// The number of alternatives of a menu, if it is there.
fn menu_size<T: Drop>(
    faults: &mut Vec<PlacedFault>,
    at: &Place<'_>,
    key: &str,
    menu: &Option<Vec<T>>,
) -> Result<(), Memory>
    ensures { OnOk result (faults.new.items ≡ faults.old.items
        ++ passes.menu_size (at.now ++ key.now) (menu_of menu.now)) }
{
    match menu {
        Some(alternatives) => {
            let number = alternatives.len();
            let cause = Cause::Limit(Limit::Alternatives);
            note_if(faults, cause, at, key, number < 1 || MENU < number)
        }
        None => Ok(()),
    }
}

/// Whether thresholds are within the limits as one array.
fn are_small_thresholds(alloc: Global, texts: &[HexValue]) -> Result<bool, Memory>
    ensures { IfOk result (λ small. small ≡ is_within_limits (thresholds_value texts.now)) }
{
    let array = Data::Array(Items::new(values_of(alloc, texts)?));
    Ok(keeps_limits(&array))
}

/// Whether times are within the limits as one array.
fn are_small_times(alloc: Global, texts: &[HexBytes]) -> Result<bool, Memory>
    ensures { IfOk result (λ small. small ≡ is_within_limits (times_value texts.now)) }
{
    let array = Data::Array(Items::new(times_of(alloc, texts)?));
    Ok(keeps_limits(&array))
}

/// Notes that an alternative has more attributes than a limit allows, where it has.
fn few_captures(
    faults: &mut Vec<PlacedFault>,
    at: &Place<'_>,
    alternative: &AlternativeParts,
) -> Result<(), Memory>
    ensures { OnOk result (faults.new.items ≡ faults.old.items
        ++ passes.at_most of.Captures CAPTURE_OBJECTS at.now alternative.now) }
{
    at_most(
        faults,
        Limit::Captures,
        at,
        CAPTURE_OBJECTS,
        alternative.captures.len(),
    )
}

/// Notes the alternatives of a menu that have more attributes than a limit allows.
fn few_in_menu(
    faults: &mut Vec<PlacedFault>,
    at: &Place<'_>,
    menu: &Option<Vec<AlternativeParts>>,
) -> Result<(), Memory>
    ensures { OnOk result (faults.new.items ≡ faults.old.items
        ++ walks.each (passes.at_most of.Captures CAPTURE_OBJECTS) (at.now ++ codes ".capture_menu")
        (unwrap_or (menu_of menu.now) [])) }
{
    each(
        faults,
        &at.below(".capture_menu"),
        menu_in(menu),
        few_captures,
    )
}

/// Notes the sizes in a profile that are past a limit: of captures, of entries, of alternatives, and of what each of these
/// captures.
fn profile_limits(
    faults: &mut Vec<PlacedFault>,
    at: &Place<'_>,
    captures: &[CaptureParts],
    entries: u64,
    menu: &Option<Vec<AlternativeParts>>,
) -> Result<(), Memory>
    ensures { OnOk result (faults.new.items ≡ faults.old.items
        ++ (passes.at_most of.Captures CAPTURE_OBJECTS (at.now ++ codes ".capture") captures.now
        ++ fault_where (causes.Limit of.Entries) (at.now ++ codes ".entries") (nat_lt PROFILE_ENTRIES entries)
        ++ passes.menu_size (at.now ++ codes ".capture_menu") (menu_of menu.now)
        ++ walks.each (passes.at_most of.Captures CAPTURE_OBJECTS) (at.now ++ codes ".capture_menu")
        (unwrap_or (menu_of menu.now) []))) }
{
    at_most(
        faults,
        Limit::Captures,
        &at.below(".capture"),
        CAPTURE_OBJECTS,
        captures.len(),
    )?;
    let many = PROFILE_ENTRIES < entries;
    note_if(faults, Cause::Limit(Limit::Entries), at, ".entries", many)?;
    menu_size(faults, at, ".capture_menu", menu)?;
    few_in_menu(faults, at, menu)
}

/// Notes the sizes in a register monitor that are past a limit: of its thresholds, and of its actions.
fn monitor_limits(
    faults: &mut Vec<PlacedFault>,
    at: &Place<'_>,
    thresholds: &[HexValue],
    actions: &[UpDownParts],
) -> Result<(), Memory>
    ensures { OnOk result (faults.new.items ≡ faults.old.items
        ++ (fault_where (causes.Limit of.Thresholds) (at.now ++ codes ".thresholds")
        (nat_lt THRESHOLDS (length thresholds.now) || not (is_within_limits (thresholds_value thresholds.now)))
        ++ passes.at_most of.MonitorActions THRESHOLDS (at.now ++ codes ".action") actions.now)) }
{
    let small = are_small_thresholds(at.alloc(), thresholds)?;
    let many = THRESHOLDS < thresholds.len();
    let cause = Cause::Limit(Limit::Thresholds);
    note_if(faults, cause, at, ".thresholds", many || !small)?;
    let place = at.below(".action");
    at_most(
        faults,
        Limit::MonitorActions,
        &place,
        THRESHOLDS,
        actions.len(),
    )
}

/// Notes the sizes in an object's body that are past a limit.
#[tactic(auto, unfolding(config_rules::specs::Passes::limits_in))]
fn limits_in(faults: &mut Vec<PlacedFault>, at: &Place<'_>, body: &BodyParts) -> Result<(), Memory>
    ensures { OnOk result (faults.new.items ≡ faults.old.items
        ++ passes.limits_in at.now (body_text body.now)) }
{
    match body {
        BodyParts::Data { value } => small_value(faults, at, ".value", value),
        BodyParts::Register { value, default, .. } => {
            small_value(faults, at, ".value", value)?;
            small_value(faults, at, ".default", default)
        }
        BodyParts::ProfileGeneric {
            capture,
            entries,
            menu,
            ..
        } => { profile_limits(faults, at, capture, *entries, menu) }
        BodyParts::ScriptTable { scripts } => {
            at_most(
                faults,
                Limit::Scripts,
                &at.below(".script"),
                SCRIPTS,
                scripts.len(),
            )?;
            each(faults, &at.below(".script"), scripts, script_limits)
        }
        BodyParts::RegisterMonitor {
            thresholds,
            actions,
            ..
        } => { monitor_limits(faults, at, thresholds, actions) }
        BodyParts::SingleActionSchedule { times, menu, .. } => {
            let small = are_small_times(at.alloc(), times)?;
            let many = EXECUTION_TIMES < times.len();
            let cause = Cause::Limit(Limit::Times);
            note_if(faults, cause, at, ".times", many || !small)?;
            menu_size(faults, at, ".script_menu", menu)
        }
        BodyParts::Clock { .. } | BodyParts::Unknown => Ok(()),
    }
}

/// Judges numbers and sizes.
///
/// # Errors
/// C16 at the clients and the objects, where these are more than a limit allows, and at each list of an object that has more
/// elements, and each value that is larger or nested deeper.
#[tactic(auto, unfolding(config_rules::specs::Passes::within_limits))]
pub(crate) fn within_limits(alloc: Global, config: &ConfigParts) -> Result<(), ConfigFault>
    ensures { Finds result (passes.within_limits config.now) }
{
    let mut faults = Vec::new(alloc);
    let top = Place::top(alloc, "");
    at_most(
        &mut faults,
        Limit::Clients,
        &top.below("client"),
        CLIENTS,
        config.clients.len(),
    )?;
    at_most(
        &mut faults,
        Limit::Objects,
        &top.below("object"),
        OBJECTS,
        config.objects.len(),
    )?;
    each(
        &mut faults,
        &top.below("object"),
        &config.objects,
        |faults, at, object| { limits_in(faults, at, &object.body) },
    )?;
    refuse(faults)
}
