//! Walks over what an object refers to: the objects of targets, and scripts. What they find is noted after what was found before.

ghost use Rattle.std.specs.Prelude.{◌≡◌, ◌++◌, List, OnOk, [], codes};
ghost use Rattle.std.specs.Option.{unwrap_or};
ghost use Rattle.config_text.specs.BodyView.{body_text};
ghost use Rattle.config_text.specs.Fault.{Fault};
ghost use Rattle.config_text.specs.Parts.{Text, ActionText, CaptureText, TargetText, ScriptRefText};
ghost use Rattle.config_rules.specs.Walks as spec;
ghost use Rattle.config_judge.specs.Menus.{menu_of, with_menu};

use crate::menus::menu_in;
use crate::walk::each;
use config_text::fault::PlacedFault;
use config_text::parts::{
    ActionParts, AlternativeParts, BodyParts, CaptureParts, ScriptParts, ScriptRefParts,
    TargetParts, UpDownParts,
};
use config_text::place::Place;
use cosem_data::memory::Memory;

/// Notes the faults of each action of each script.
#[tactic(auto, unfolding(config_rules::specs::Walks::each_from))]
pub(crate) fn each_action<
    F: Fn(&mut Vec<PlacedFault>, &Place<'_>, &ActionParts) -> Result<(), Memory>,
>(
    faults: &mut Vec<PlacedFault>,
    at: &Place<'_>,
    scripts: &[ScriptParts],
    judge: F,
) -> Result<(), Memory>
    requires { F.IsAlwaysCallable judge }
    ensures { (says : Text → ActionText → List Fault)
        → ((before : _) (place : _) (x : _) (r : _) (after : _) → F.post judge before place x r after
        → OnOk r (after.now.items ≡ before.now.items ++ says place.now x.now))
        → OnOk result (faults.new.items ≡ faults.old.items ++ spec.each_action says at.now scripts.now) }
{
    let name = at.below(".script");
    for (i, script) in scripts.iter().enumerate() {
        let place = name.element(i);
        each(
            faults,
            &place.below(".action"),
            &script.actions,
            |faults, at, x| judge(faults, at, x),
        )?;
    }
    Ok(())
}

/// Notes the faults of each attribute that a profile captures, at the start and by each alternative.
pub(crate) fn each_capture<
    F: Fn(&mut Vec<PlacedFault>, &Place<'_>, &CaptureParts) -> Result<(), Memory>,
>(
    faults: &mut Vec<PlacedFault>,
    at: &Place<'_>,
    capture: &[CaptureParts],
    menu: &Option<Vec<AlternativeParts>>,
    judge: F,
) -> Result<(), Memory>
    requires { F.IsAlwaysCallable judge }
    ensures { (says : Text → CaptureText → List Fault)
        → ((before : _) (place : _) (x : _) (r : _) (after : _) → F.post judge before place x r after
        → OnOk r (after.now.items ≡ before.now.items ++ says place.now x.now))
        → OnOk result (faults.new.items ≡ faults.old.items
        ++ spec.each_capture says at.now (with_menu capture.now menu.now)) }
{
    each(
        faults,
        &at.below(".capture"),
        capture,
        |faults, at, x| judge(faults, at, x),
    )?;
    each_alternative(faults, at, menu, judge)
}

/// Notes the faults of each attribute of each alternative of a profile's menu.
#[tactic(auto, unfolding(config_rules::specs::Walks::each_from))]
pub(crate) fn each_alternative<
    F: Fn(&mut Vec<PlacedFault>, &Place<'_>, &CaptureParts) -> Result<(), Memory>,
>(
    faults: &mut Vec<PlacedFault>,
    at: &Place<'_>,
    menu: &Option<Vec<AlternativeParts>>,
    judge: F,
) -> Result<(), Memory>
    requires { F.IsAlwaysCallable judge }
    ensures { (says : Text → CaptureText → List Fault)
        → ((before : _) (place : _) (x : _) (r : _) (after : _) → F.post judge before place x r after
        → OnOk r (after.now.items ≡ before.now.items ++ says place.now x.now))
        → OnOk result (faults.new.items ≡ faults.old.items
        ++ spec.each (spec.each says) (at.now ++ codes ".capture_menu") (unwrap_or (menu_of menu.now) [])) }
{
    let name = at.below(".capture_menu");
    let alternatives = menu_in(menu);
    for (i, alternative) in alternatives.iter().enumerate() {
        each(
            faults,
            &name.element(i),
            &alternative.captures,
            |faults, at, x| judge(faults, at, x),
        )?;
    }
    Ok(())
}

/// Notes the faults of both scripts of each threshold.
#[tactic(auto, unfolding(config_rules::specs::Walks::each_from))]
fn each_threshold<F: Fn(&mut Vec<PlacedFault>, &Place<'_>, &ScriptRefParts) -> Result<(), Memory>>(
    faults: &mut Vec<PlacedFault>,
    at: &Place<'_>,
    actions: &[UpDownParts],
    judge: F,
) -> Result<(), Memory>
    requires { F.IsAlwaysCallable judge }
    ensures { (says : Text → ScriptRefText → List Fault)
        → ((before : _) (place : _) (x : _) (r : _) (after : _) → F.post judge before place x r after
        → OnOk r (after.now.items ≡ before.now.items ++ says place.now x.now))
        → OnOk result (faults.new.items ≡ faults.old.items
        ++ spec.each (spec.both_scripts says) (at.now ++ codes ".action") actions.now) }
{
    let name = at.below(".action");
    for (i, scripts) in actions.iter().enumerate() {
        let place = name.element(i);
        judge(faults, &place.below(".up"), &scripts.up)?;
        judge(faults, &place.below(".down"), &scripts.down)?;
    }
    Ok(())
}

/// Notes the faults of each script of a schedule's menu.
fn each_of_menu<F: Fn(&mut Vec<PlacedFault>, &Place<'_>, &ScriptRefParts) -> Result<(), Memory>>(
    faults: &mut Vec<PlacedFault>,
    at: &Place<'_>,
    menu: &Option<Vec<ScriptRefParts>>,
    judge: F,
) -> Result<(), Memory>
    requires { F.IsAlwaysCallable judge }
    ensures { (says : Text → ScriptRefText → List Fault)
        → ((before : _) (place : _) (x : _) (r : _) (after : _) → F.post judge before place x r after
        → OnOk r (after.now.items ≡ before.now.items ++ says place.now x.now))
        → OnOk result (faults.new.items ≡ faults.old.items
        ++ spec.each says (at.now ++ codes ".script_menu") (unwrap_or (menu_of menu.now) [])) }
{
    each(faults, &at.below(".script_menu"), menu_in(menu), judge)
}

/// Notes the faults of the script of a schedule, at the start and by each alternative.
fn each_run<F: Fn(&mut Vec<PlacedFault>, &Place<'_>, &ScriptRefParts) -> Result<(), Memory>>(
    faults: &mut Vec<PlacedFault>,
    at: &Place<'_>,
    script: &ScriptRefParts,
    menu: &Option<Vec<ScriptRefParts>>,
    judge: F,
) -> Result<(), Memory>
    requires { F.IsAlwaysCallable judge }
    ensures { (says : Text → ScriptRefText → List Fault)
        → ((before : _) (place : _) (x : _) (r : _) (after : _) → F.post judge before place x r after
        → OnOk r (after.now.items ≡ before.now.items ++ says place.now x.now))
        → OnOk result (faults.new.items ≡ faults.old.items
        ++ spec.each_run says at.now (with_menu script.now menu.now)) }
{
    judge(faults, &at.below(".script"), script)?;
    each_of_menu(faults, at, menu, judge)
}

/// Notes the faults of whatever an object refers to: of each attribute or method by one closure, of each script by another.
#[tactic(auto, unfolding(config_rules::specs::Walks::references))]
pub(crate) fn references<
    F: Fn(&mut Vec<PlacedFault>, &Place<'_>, &TargetParts) -> Result<(), Memory>,
    G: Fn(&mut Vec<PlacedFault>, &Place<'_>, &ScriptRefParts) -> Result<(), Memory>,
>(
    faults: &mut Vec<PlacedFault>,
    at: &Place<'_>,
    body: &BodyParts,
    target: F,
    script: G,
) -> Result<(), Memory>
    requires { F.IsAlwaysCallable target × G.IsAlwaysCallable script }
    ensures { (targets : Text → TargetText → List Fault) → (scripts : Text → ScriptRefText → List Fault)
        → ((before : _) (place : _) (x : _) (r : _) (after : _) → F.post target before place x r after
        → OnOk r (after.now.items ≡ before.now.items ++ targets place.now x.now))
        → ((before : _) (place : _) (x : _) (r : _) (after : _) → G.post script before place x r after
        → OnOk r (after.now.items ≡ before.now.items ++ scripts place.now x.now))
        → OnOk result (faults.new.items ≡ faults.old.items
        ++ spec.references targets scripts at.now (body_text body.now)) }
{
    match body {
        BodyParts::ProfileGeneric { capture, menu, .. } => {
            each_capture(
                faults,
                at,
                capture,
                menu,
                |faults, at, x| target(faults, at, &x.target),
            )
        }
        BodyParts::ScriptTable { scripts } => {
            each_action(
                faults,
                at,
                scripts,
                |faults, at, x| target(faults, at, &x.target),
            )
        }
        BodyParts::RegisterMonitor {
            monitored,
            actions,
            ..
        } => {
            target(faults, &at.below(".monitored"), monitored)?;
            each_threshold(faults, at, actions, script)
        }
        BodyParts::SingleActionSchedule {
            script: start,
            menu,
            ..
        } => { each_run(faults, at, start, menu, script) }
        BodyParts::Data { .. }
        | BodyParts::Register { .. }
        | BodyParts::Clock { .. }
        | BodyParts::Unknown => Ok(()),
    }
}
