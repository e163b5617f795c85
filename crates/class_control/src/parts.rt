//! What a plan fixes of an object of each class, with the start values of its cells.
ghost use Rattle.std.specs.Prelude.{◌<◌};

use crate::menus::{has_script, is_executed_script};
use crate::script::Script;
use crate::shapes::script_ref_data;
use civil_moment::moment::Moment;
use cosem_class::class::ClassFault;
use cosem_class::judge::keeps_limits;
use cosem_data::cell::CellRef;
use cosem_data::data::Data;
use cosem_data::kind::Kind;
use cosem_data::memory::Memory;
use meter_theory::refs::{ScriptRef, UpDown};
use std::alloc::Global;

/// The start of the time of a clock, of which a plan fixes nothing else (IEC 62056-6-2, Clock; own profile).
#[derive(Clone, Copy, Drop)]
pub struct ClockPart {
    /// The moment at which the clock starts.
    pub start: Moment,
}

/// What a plan fixes of a script table: all of it (IEC 62056-6-2, Script table).
#[derive(Drop)]
pub struct ScriptTablePart {
    /// Attribute 2, scripts.
    pub scripts: Vec<Script>,
}

/// What a plan fixes of a register monitor, and the start of its thresholds (IEC 62056-6-2, Register monitor).
#[derive(Drop)]
pub struct MonitorPart {
    /// Attribute 3, monitored_value: the attribute that is watched.
    pub monitored_value: CellRef,
    /// The start of attribute 2, thresholds.
    pub start: Data,
    /// Attribute 4, actions: what is run at each threshold, in the order of the thresholds.
    pub actions: Vec<UpDown>,
    // The index of the monitored attribute is at most 127, as an integer says it.
    pub ghost index_fits: { monitored_value.index < 128 },
}

/// What a plan fixes of a single action schedule, and the start of its times (IEC 62056-6-2, Single action schedule).
#[derive(Drop)]
pub struct SchedulePart {
    /// Attribute 2, executed_script, at the start.
    pub executed_script: ScriptRef,
    /// The other scripts that executed_script may be set to; where there are none, it is fixed (own profile).
    pub menu: Vec<ScriptRef>,
    /// Attribute 3, type, from 1 to 5.
    pub execution_type: u8,
    /// The start of attribute 4, execution_time.
    pub start: Data,
}

impl SchedulePart {
    ghost use Rattle.std.specs.Prelude.{◌≡◌, IfOk, cond, map, option_map, None, Some};
    ghost use Rattle.std.specs.List.{list_any};
    ghost use Rattle.cosem_data.specs.View.{tree};
    ghost use Rattle.cosem_data.specs.Equal.{same_tree};
    ghost use Rattle.cosem_data.specs.declared.kind.Kind.TheVariants.{Structure};
    ghost use Rattle.meter_theory.specs.Menus.{alternatives, has_menu, script_ref_value};
    ghost use Rattle.meter_theory.specs.Value.{OneOf};
    ghost use Rattle.cosem_class.specs.Judged.{judged, answer_of};
    ghost use Rattle.class_control.specs.PartView.{scripts_of_part};

    /// Whether attribute 2, executed_script, can be set.
    pub fn has_menu(&self) -> bool
        ensures { result ≡ has_menu (scripts_of_part self.now) }
    {
        !self.menu.is_empty()
    }

    /// The start of attribute 2, executed_script, where it can be set.
    pub(crate) fn start_script(&self, alloc: Global) -> Result<Option<Data>, Memory>
        ensures { IfOk result (λ value. option_map tree value
            ≡ cond (has_menu (scripts_of_part self.now)) (Some (script_ref_value self.now.executed_script)) None) }
    {
        if self.has_menu() {
            Ok(Some(script_ref_data(alloc, self.executed_script)?))
        } else {
            Ok(None)
        }
    }

    /// Whether attribute 2, executed_script, may be set to a value: to one of its menu, or back to what it was at the start (own
    /// profile). Another tag than that of a structure is `Kind`, anything else `Rule`.
    pub fn judge_script(&self, value: &Data) -> Result<(), ClassFault>
        ensures { result
            ≡ answer_of (judged (OneOf Structure (map script_ref_value (alternatives (scripts_of_part self.now))))
            (tree value.now)) }
    {
        if value.kind() != Kind::Structure {
            return Err(ClassFault::Kind);
        }
        if !keeps_limits(value) || !self.offers(value) {
            return Err(ClassFault::Rule);
        }
        Ok(())
    }

    /// Whether the value is the executed_script of one of the alternatives.
    fn offers(&self, value: &Data) -> bool
        ensures { result
            ≡ list_any (λ w. same_tree w (tree value.now)) (map script_ref_value (alternatives (scripts_of_part self.now))) }
    {
        is_executed_script(value, self.executed_script) || has_script(&self.menu, value)
    }
}
