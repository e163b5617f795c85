ghost use Rattle.std.specs.Prelude.{◌≡◌, ◌==◌, ℕ, cond, is_some, map, option_map, true, false, ⊤, None, Some, IfOk};
ghost use Rattle.cosem_data.specs.View.{tree};
ghost use Rattle.cosem_data.specs.declared.kind.Kind.TheVariants.{Structure};
ghost use Rattle.meter_theory.specs.Times.{is_schedule_due};
ghost use Rattle.meter_theory.specs.Menus.{alternatives, has_menu, script_ref_value};
ghost use Rattle.meter_theory.specs.Value.{ExecutionTimes, OneOf, elements, meets};
ghost use Rattle.cosem_class.specs.CellSets.{has};
ghost use Rattle.cosem_class.specs.Judged.{rule_answer};
ghost use Rattle.cosem_class.specs.Objects.{tree_or_null};
ghost use Rattle.class_control.specs.PartView.{scripts_of_part};
ghost use Rattle.class_control.specs.ScheduleClass.{ScheduleFixed, is_settable, schedule_cells, schedule_fixed, schedule_held, schedule_reading, schedule_refusal, schedule_rule, schedule_new_value, schedule_touched, ScheduleMeetsRule};
ghost use Rattle.class_control.specs.ScheduleChanges.{index_changed, script_before, times_before};
ghost use Rattle.class_control.specs.ScheduleLaws.{schedule_depends_only_on_sources, schedule_writes_its_value, schedule_keeps_rules};

use crate::judge::judge_times;
use crate::matching;
use crate::parts::SchedulePart;
use crate::references::push_named_tables;
use crate::shapes::script_ref_data;
use civil_moment::moment::Moment;
use cosem_class::cell_set::CellSet;
use cosem_class::class::{ClassFault, InterfaceClass, Lent, Op, Row};
use cosem_class::generic::put_into;
use cosem_class::judge::coded;
use cosem_class::part::ClassPart;
use cosem_class::shapes::{copy_if, copy_or_null};
use cosem_data::data::Data;
use cosem_data::kind::Kind;
use cosem_data::memory::Memory;
use cosem_data::name::LogicalName;
use meter_theory::access::AccessCode;
use meter_theory::refs::Interface;
use std::alloc::Global;
use std::mem;

/// The cells of an object of class 22, Single action schedule: which script is run, and the times at which it is (IEC
/// 62056-6-2, Single action schedule, version 0).
#[derive(Drop)]
pub struct Schedule {
    /// Attribute 2, executed_script, where it can be set: which script is run now. None where it is fixed.
    pub executed_script: Option<Data>,
    /// Attribute 4, execution_time: an array of times and dates that fits the type of the part.
    pub times: Data,
}

/// What an operation changed of a single action schedule.
#[derive(Drop)]
pub enum ScheduleChange {
    /// The script that it ran before.
    Script(Data),
    /// The times before.
    Times(Data),
}

/// The indexes of the cells where the script is fixed.
static CELLS: [u8; 1] = [Schedule::EXECUTION_TIME];

/// The same where the script can be set.
static CELLS_WITH_MENU: [u8; 2] = [Schedule::EXECUTED_SCRIPT, Schedule::EXECUTION_TIME];

impl Schedule {
    /// Class 22, Single action schedule, version 0, with four attributes and no method (IEC 62056-6-2).
    pub const INTERFACE: Interface = Interface {
        class_id: 22,
        version: 0,
        attributes: 4,
        methods: 0,
    };

    /// The index of the script that is run.
    pub const EXECUTED_SCRIPT: u8 = 2;

    /// The index of the type.
    pub(crate) const TYPE: u8 = 3;

    /// The index of the times.
    pub const EXECUTION_TIME: u8 = 4;

    /// An object with the start values.
    pub fn start(alloc: Global, part: &SchedulePart) -> Result<Schedule, Memory>
        ensures script { IfOk result (λ object. option_map tree object.executed_script
            ≡ cond (has_menu (scripts_of_part part.now)) (Some (script_ref_value part.now.executed_script)) None) }
        ensures times { IfOk result (λ object. tree object.times ≡ tree part.now.start) }
    {
        Ok(Schedule {
            executed_script: part.start_script(alloc)?,
            times: part.start.try_clone(alloc)?,
        })
    }

    /// A copy.
    pub fn try_clone(&self, alloc: Global) -> Result<Schedule, Memory>
        ensures { IfOk result (λ copy. copy ≡ self.now) }
    {
        Ok(Schedule {
            executed_script: copy_if(alloc, &self.executed_script)?,
            times: self.times.try_clone(alloc)?,
        })
    }

    /// Whether there is a cell at this index: the script where it can be set, and the times.
    pub fn has(&self, index: u8) -> bool
        ensures { result
            ≡ is_some (schedule_held (option_map tree self.now.executed_script) (tree self.now.times) index) }
    {
        match index {
            Schedule::EXECUTED_SCRIPT => self.executed_script.is_some(),
            Schedule::EXECUTION_TIME => true,
            _ => false,
        }
    }

    /// The value in the cell at this index.
    pub fn held(&self, index: u8) -> &Data
        requires { is_some (schedule_held (option_map tree self.now.executed_script) (tree self.now.times) index)
            ≡ true }
        ensures { schedule_held (option_map tree self.now.executed_script) (tree self.now.times) index
            ≡ Some (tree result.now) }
    {
        match (index, &self.executed_script) {
            (Schedule::EXECUTED_SCRIPT, Some(script)) => script,
            _ => &self.times,
        }
    }

    /// Puts a script of the menu, or times that fit the type. What is returned takes it back. It takes no memory.
    pub fn put(&mut self, lent: Lent<SchedulePart>, index: u8, given: Data) -> ScheduleChange
        requires held { is_some (schedule_held (option_map tree self.old.executed_script) (tree self.old.times) index)
            ≡ true }
        requires settable { is_settable (schedule_fixed lent.name lent.part.now) index ≡ true }
        requires fits { meets (schedule_rule (schedule_fixed lent.name lent.part.now) index)
            (tree given) ≡ true }
        ensures script { option_map tree self.new.executed_script
            ≡ cond (index == 2) (Some (tree given)) (option_map tree self.old.executed_script) }
        ensures times { tree self.new.times ≡ cond (index == 2) (tree self.old.times) (tree given) }
        ensures index { index_changed result ≡ index }
        ensures script_before { script_before result (option_map tree self.new.executed_script)
            ≡ option_map tree self.old.executed_script }
        ensures times_before { times_before result (tree self.new.times) ≡ tree self.old.times }
    {
        if index == Schedule::EXECUTED_SCRIPT {
            return ScheduleChange::Script(put_into(self, lent, index, given));
        }
        // The class shows a script that is fixed as null-data, so it doesn't say that a write of the times leaves none.
        let script = self.executed_script.take();
        let previous = put_into(self, lent, index, given);
        self.executed_script = script;
        ScheduleChange::Times(previous)
    }

    /// Puts back what was there before.
    pub fn undo(&mut self, change: ScheduleChange)
        ensures script { option_map tree self.new.executed_script
            ≡ script_before change (option_map tree self.old.executed_script) }
        ensures times { tree self.new.times ≡ times_before change (tree self.old.times) }
    {
        match change {
            ScheduleChange::Script(held) => self.executed_script = Some(held),
            ScheduleChange::Times(held) => self.times = held,
        }
    }

    /// Whether the script is to be run at the moment: some element of execution_time names it (IEC 62056-6-2, Single action
    /// schedule).
    pub fn is_due(&self, moment: Moment) -> bool
        ensures { result ≡ is_schedule_due (elements (tree self.now.times)) moment }
    {
        matching::is_due(&self.times, moment)
    }
}

/// The same as `judge_script`, with the code of the fault.
fn script_answer(part: &SchedulePart, value: &Data) -> Result<(), AccessCode>
    ensures { result
        ≡ rule_answer (Some (OneOf Structure (map script_ref_value (alternatives (scripts_of_part part.now)))))
        (tree value.now) }
{
    coded(part.judge_script(value))
}

/// The same as `judge_times`, with the code of the fault.
fn times_answer(execution_type: u8, value: &Data) -> Result<(), AccessCode>
    ensures { result ≡ rule_answer (Some (ExecutionTimes execution_type)) (tree value.now) }
{
    coded(judge_times(execution_type, value))
}

impl ClassPart for SchedulePart {
    ghost use Rattle.class_control.specs.PartView.{schedule_part_of};

    ghost part = { schedule_part_of };

    fn interface(&self) -> Interface {
        Schedule::INTERFACE
    }

    fn cells(&self) -> &'static [u8] {
        if self.has_menu() {
            &CELLS_WITH_MENU
        } else {
            &CELLS
        }
    }

    fn start_kind(&self, index: u8) -> Kind {
        match index {
            Schedule::EXECUTED_SCRIPT if self.has_menu() => Kind::Structure,
            Schedule::EXECUTION_TIME => self.start.kind(),
            _ => Kind::NullData,
        }
    }

    /// 2, executed_script, and 3, type (IEC 62056-6-2, Single action schedule).
    #[tactic(auto, unfolding(meter_theory::specs::Fixed::fixed_in))]
    fn fixed(&self, alloc: Global, index: u8) -> Result<Data, Memory> {
        match index {
            Schedule::EXECUTED_SCRIPT => script_ref_data(alloc, self.executed_script),
            Schedule::TYPE => Ok(Data::Enumerated(self.execution_type)),
            _ => Ok(Data::NullData),
        }
    }

    fn judge(&self, _monitored: Kind, index: u8, value: &Data) -> Result<(), AccessCode> {
        match index {
            Schedule::EXECUTED_SCRIPT if self.has_menu() => script_answer(self, value),
            Schedule::EXECUTION_TIME => times_answer(self.execution_type, value),
            _ => Err(AccessCode::TypeUnmatched),
        }
    }

    fn push_references(&self, names: &mut Vec<LogicalName>) -> Result<(), Memory> {
        names.push(self.executed_script.table)?;
        push_named_tables(&self.menu, names)
    }
}

impl<'a> InterfaceClass<Lent<'a, SchedulePart>> for Schedule {
    const CLASS_ID: u16 = Schedule::INTERFACE.class_id;

    const VERSION: u8 = Schedule::INTERFACE.version;

    const ATTRIBUTES: u8 = Schedule::INTERFACE.attributes;

    const METHODS: u8 = Schedule::INTERFACE.methods;

    ghost Fixed = { ScheduleFixed };

    ghost fixed = { λ _ lent. schedule_fixed lent.name lent.part.now };

    ghost cells = { λ s. schedule_cells (tree_or_null s.executed_script) (tree s.times) };

    ghost reading = { schedule_reading };

    ghost refusal = { schedule_refusal };

    ghost new_value = { schedule_new_value };

    ghost kept = { λ value. value };

    ghost MeetsRule = { ScheduleMeetsRule };

    ghost IsRow = { λ _ _ _. ⊤ };

    ghost touched = { schedule_touched };

    ghost own_sources = { λ _ _ _. false };

    ghost row_cells = { λ _ _. false };

    ghost depends_only_on_sources = { schedule_depends_only_on_sources };

    ghost writes_its_value = { schedule_writes_its_value };

    ghost keeps_rules = { schedule_keeps_rules };

    fn read(&self, alloc: Global, lent: Lent<SchedulePart>, index: u8) -> Result<Data, ClassFault> {
        match index {
            1 => Ok(lent.name.as_octets(alloc)?),
            Schedule::EXECUTED_SCRIPT if lent.part.has_menu() => {
                Ok(copy_or_null(alloc, &self.executed_script)?)
            }
            Schedule::EXECUTED_SCRIPT => Ok(script_ref_data(alloc, lent.part.executed_script)?),
            Schedule::TYPE => Ok(Data::Enumerated(lent.part.execution_type)),
            Schedule::EXECUTION_TIME => Ok(self.times.try_clone(alloc)?),
            _ => Err(ClassFault::NoIndex),
        }
    }

    fn write(
        &mut self,
        lent: Lent<SchedulePart>,
        index: u8,
        value: Data,
    ) -> Result<Data, ClassFault> {
        match index {
            Schedule::EXECUTION_TIME => {
                judge_times(lent.part.execution_type, &value)?;
                Ok(mem::replace(&mut self.times, value))
            }
            Schedule::EXECUTED_SCRIPT if lent.part.has_menu() => {
                lent.part.judge_script(&value)?;
                let previous = mem::replace(&mut self.executed_script, Some(value));
                Ok(previous.unwrap_or(Data::NullData))
            }
            1 | Schedule::EXECUTED_SCRIPT | Schedule::TYPE => Err(ClassFault::NotSettable),
            _ => Err(ClassFault::NoIndex),
        }
    }

    fn invoke(
        &mut self,
        _alloc: Global,
        _lent: Lent<SchedulePart>,
        _method: u8,
        _argument: &Data,
        _row: Row,
    ) -> Result<(), ClassFault> {
        Err(ClassFault::NoIndex)
    }

    fn touched(op: Op) -> CellSet
        ensures { (i : ℕ) → has result i ≡ schedule_touched op i }
    {
        match op {
            Op::Write(Schedule::EXECUTED_SCRIPT) => CellSet::empty().with(
                Schedule::EXECUTED_SCRIPT,
            ),
            Op::Write(Schedule::EXECUTION_TIME) => CellSet::empty().with(Schedule::EXECUTION_TIME),
            _ => CellSet::empty(),
        }
    }

    fn own_sources(_op: Op, _cell: u8) -> CellSet
        ensures { (i : ℕ) → has result i ≡ false }
    {
        CellSet::empty()
    }

    fn row_cells(_op: Op) -> CellSet
        ensures { (i : ℕ) → has result i ≡ false }
    {
        CellSet::empty()
    }
}
