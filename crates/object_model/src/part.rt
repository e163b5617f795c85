//! What a plan fixes of an object by its interface class.
ghost use Rattle.std.specs.Prelude.{◌≡◌, ◌==◌, ◌≤◌, ◌++◌, ◌&&◌, map, length, IfOk, OnOk};
ghost use Rattle.cosem_data.specs.declared.name.LogicalName.{LogicalName as LogicalNameValue};
ghost use Rattle.std.specs.List.{list_any, position_from};
ghost use Rattle.cosem_data.specs.View.{tree};
ghost use Rattle.cosem_data.specs.Cells.{cell, same_cell, same_name};
ghost use Rattle.cosem_data.specs.Kinds.{kind_of};
ghost use Rattle.cosem_class.specs.Judged.{rule_answer};
ghost use Rattle.cosem_class.specs.Parts.{references, rule_watching};
ghost use Rattle.meter_theory.specs.Plan.{class_of, interface_of, start_of};
ghost use Rattle.meter_theory.specs.State.{keys, value};
ghost use Rattle.meter_theory.specs.Fixed.{fixed_in};
ghost use Rattle.object_model.specs.PartView.{part_of, monitored_in};

use class_control::parts::{ClockPart, MonitorPart, SchedulePart, ScriptTablePart};
use class_profile::profile::ProfilePart;
use cosem_class::data1::DataPart;
use cosem_class::part::ClassPart;
use cosem_class::register::RegisterPart;
use cosem_data::cell::CellRef;
use cosem_data::data::Data;
use cosem_data::kind::Kind;
use cosem_data::memory::Memory;
use cosem_data::name::LogicalName;
use meter_theory::access::AccessCode;
use meter_theory::refs::Interface;
use std::alloc::Global;

/// What a plan fixes of an object, by its class, and the start values of its cells: the attributes that can change
/// (IEC 62056-6-2, interface classes).
#[derive(Drop)]
pub enum Part {
    /// Class 1, Data: the start of its value, whose kind is kept (own profile).
    Data(DataPart),
    /// Class 3, Register: the start of its value, what a reset puts, and scaler and unit.
    Register(RegisterPart),
    /// Class 7, Profile generic: what it captures, how often and how much of it is kept.
    ProfileGeneric(ProfilePart),
    /// Class 8, Clock: the moment at which it starts.
    Clock(ClockPart),
    /// Class 9, Script table: its scripts.
    ScriptTable(ScriptTablePart),
    /// Class 21, Register monitor: what it watches, its thresholds and what is run at each.
    RegisterMonitor(MonitorPart),
    /// Class 22, Single action schedule: what is run, and when.
    SingleActionSchedule(SchedulePart),
}

/// The value of an expression over what the part holds, whichever its class is.
macro_rules! of_part {
    ($part:expr, $held:ident => $value:expr) => {
        match $part {
            Part::Data($held) => $value,
            Part::Register($held) => $value,
            Part::ProfileGeneric($held) => $value,
            Part::Clock($held) => $value,
            Part::ScriptTable($held) => $value,
            Part::RegisterMonitor($held) => $value,
            Part::SingleActionSchedule($held) => $value,
        }
    };
}

impl Part {
    /// Its interface class, with the highest attribute and method (IEC 62056-6-2).
    pub fn interface(&self) -> Interface
        ensures { result ≡ interface_of (part_of self.now) }
    {
        of_part!(self, part => part.interface())
    }

    /// The class_id of its interface class (IEC 62056-6-2).
    pub fn class_id(&self) -> u16
        ensures { result ≡ class_of (part_of self.now) }
    {
        self.interface().class_id
    }

    /// A copy of a fixed attribute other than the logical name, null-data at any other index (IEC 62056-6-2).
    pub fn fixed(&self, alloc: Global, index: u8) -> Result<Data, Memory>
        ensures { IfOk result (λ value. tree value ≡ fixed_in (part_of self.now) index) }
    {
        of_part!(self, part => part.fixed(alloc, index))
    }

    /// The attribute that a register monitor watches.
    pub fn monitored(&self) -> Option<CellRef>
        ensures { result ≡ monitored_in (part_of self.now) }
    {
        match self {
            Part::RegisterMonitor(part) => Some(part.monitored_value),
            _ => None,
        }
    }

    /// The indexes of the cells of an object with this part, what a register monitor has seen, at index 0, among them.
    fn cells(&self) -> &'static [u8]
        ensures { (name : LogicalNameValue) → map (cell (class_of (part_of self.now)) name) result.now
            ≡ keys (start_of name (part_of self.now)) }
    {
        of_part!(self, part => part.cells())
    }

    /// How many cells an object with this part has, what a register monitor has seen among them.
    pub(crate) fn number_of_cells(&self) -> u16
        ensures number { (name : LogicalNameValue)
            → result ≡ length (start_of name (part_of self.now)) }
        ensures few { result ≤ 4 }
    {
        self.cells().len() as u16
    }

    /// Puts the cells of an object with this part and name behind others. The only error is want of memory.
    pub(crate) fn push_cells(
        &self,
        name: LogicalName,
        cells: &mut Vec<CellRef>,
    ) -> Result<(), Memory>
        ensures { OnOk result (cells.new.items
            ≡ cells.old.items ++ keys (start_of name (part_of self.now))) }
    {
        let class_id = self.class_id();
        let indexes = self.cells();
        for index in indexes {
            cells.push(CellRef {
                class_id,
                name,
                index: *index,
            })?;
        }
        Ok(())
    }

    /// Whether it is a cell of an object with this part and name: an attribute that can change, or what a register monitor
    /// has seen.
    pub fn has_cell(&self, name: LogicalName, cell: &CellRef) -> bool
        ensures { result ≡ list_any (same_cell cell.now) (keys (start_of name (part_of self.now))) }
    {
        self.cell_place(name, cell).is_some()
    }

    /// Where a cell stands among those of an object with this part and name, counted from 0, or None where it is none of
    /// them.
    pub(crate) fn cell_place(&self, name: LogicalName, cell: &CellRef) -> Option<u16>
        ensures { result
            ≡ position_from (same_cell cell.now) 0 (keys (start_of name (part_of self.now))) }
    {
        if !self.is_attribute(name, cell) {
            return None;
        }
        let place = place_among(self.cells(), cell.index)?;
        Some(place as u16)
    }

    /// The kind of the value with which a cell of an object with this part starts; that of null-data for what is no cell.
    pub fn start_kind(&self, name: LogicalName, cell: &CellRef) -> Kind
        ensures { result ≡ kind_of (value (start_of name (part_of self.now)) cell.now) }
    {
        if !self.is_attribute(name, cell) {
            return Kind::NullData;
        }
        of_part!(self, part => part.start_kind(cell.index))
    }

    /// Whether the cell is named as one of an object with this part and name.
    fn is_attribute(&self, name: LogicalName, cell: &CellRef) -> bool
        ensures { result
            ≡ ((cell.now.class_id == class_of (part_of self.now)) && same_name cell.now.name name) }
    {
        cell.class_id == self.class_id() && cell.name == name
    }

    /// Whether a value may be put at this index, where a register monitor watches a value of this kind: `TypeUnmatched` for
    /// another tag and for an index without a settable cell, `OtherReason` for the right tag against the rest of the cell's
    /// rule (own profile; the codes are those of IEC 62056-5-3, Data-Access-Result).
    pub fn judge(&self, monitored: Kind, index: u8, value: &Data) -> Result<(), AccessCode>
        ensures { result
            ≡ rule_answer (rule_watching monitored (part_of self.now) index) (tree value.now) }
    {
        of_part!(self, part => part.judge(monitored, index, value))
    }

    /// Puts the names of the objects to which it refers behind others, in its order. The only error is want of memory.
    pub(crate) fn push_references(&self, names: &mut Vec<LogicalName>) -> Result<(), Memory>
        ensures { OnOk result (names.new.items ≡ names.old.items ++ references (part_of self.now)) }
    {
        of_part!(self, part => part.push_references(names))
    }
}

/// Where an index stands first among those of the cells of one object, counted from 0.
fn place_among(indexes: &[u8], index: u8) -> Option<usize>
    ensures { result ≡ position_from (λ i. index == i) 0 indexes.now }
{
    indexes.iter().position(|other| index == *other)
}
