ghost use Rattle.std.specs.Prelude.{◌≡◌, ◌==◌, ℕ, map, false, ⊤};
ghost use Rattle.std.specs.List.{list_any};
ghost use Rattle.cosem_class.specs.CellSets.{has};
ghost use Rattle.cosem_class.specs.Objects.{no_cells};
ghost use Rattle.meter_theory.specs.Rights as rights;
ghost use Rattle.class_control.specs.ScriptView.{script_of};
ghost use Rattle.class_control.specs.ScriptTableClass.{ScriptTableFixed, script_table_reading, script_table_refusal, script_table_new_value, script_table_touched, ScriptTableMeetsRule};
ghost use Rattle.class_control.specs.ScriptTableLaws.{script_table_depends_only_on_sources, script_table_writes_its_value, script_table_keeps_rules};

use crate::parts::ScriptTablePart;
use crate::references::push_scripts;
use crate::script::Script;
use crate::shapes::scripts_data;
use cosem_class::cell_set::CellSet;
use cosem_class::class::{ClassFault, InterfaceClass, Lent, Op, Row};
use cosem_class::part::ClassPart;
use cosem_data::data::Data;
use cosem_data::kind::Kind;
use cosem_data::memory::Memory;
use cosem_data::name::LogicalName;
use meter_theory::access::AccessCode;
use meter_theory::refs::Interface;
use std::alloc::Global;

/// An object of class 9, Script table: it has no cell, all of it is fixed by the plan (IEC 62056-6-2, Script table,
/// version 0).
#[derive(Clone, Copy, Drop)]
pub struct ScriptTable;

/// The indexes of the cells, of which there are none.
static CELLS: [u8; 0] = [];

impl ScriptTable {
    /// Class 9, Script table, version 0, with two attributes and one method, execute (IEC 62056-6-2).
    pub const INTERFACE: Interface = Interface {
        class_id: 9,
        version: 0,
        attributes: 2,
        methods: 1,
    };

    /// The index of the scripts.
    pub const SCRIPTS: u8 = 2;

    /// The method that runs a script.
    pub const EXECUTE: u8 = 1;
}

/// Whether a number is that of a script, or 0, that of the null script (IEC 62056-6-2, Script table, execute).
pub fn knows_script(scripts: &[Script], id: u16) -> bool
    ensures { result ≡ rights.knows_script (map script_of scripts.now) id }
{
    id == 0 || has_script(scripts, id)
}

/// Whether a number is that of a script.
fn has_script(scripts: &[Script], id: u16) -> bool
    ensures { result ≡ list_any (λ s. s.id == id) (map script_of scripts.now) }
{
    scripts.iter().any(|script| script.id == id)
}

impl ClassPart for ScriptTablePart {
    ghost use Rattle.class_control.specs.PartView.{script_table_part_of};

    ghost part = { script_table_part_of };

    fn interface(&self) -> Interface {
        ScriptTable::INTERFACE
    }

    fn cells(&self) -> &'static [u8] {
        &CELLS
    }

    fn start_kind(&self, _index: u8) -> Kind {
        Kind::NullData
    }

    /// 2, scripts (IEC 62056-6-2, Script table).
    #[tactic(auto, unfolding(meter_theory::specs::Fixed::fixed_in))]
    fn fixed(&self, alloc: Global, index: u8) -> Result<Data, Memory> {
        match index {
            ScriptTable::SCRIPTS => scripts_data(alloc, &self.scripts),
            _ => Ok(Data::NullData),
        }
    }

    fn judge(&self, _monitored: Kind, _index: u8, _value: &Data) -> Result<(), AccessCode> {
        Err(AccessCode::TypeUnmatched)
    }

    fn push_references(&self, names: &mut Vec<LogicalName>) -> Result<(), Memory> {
        push_scripts(&self.scripts, names)
    }
}

impl<'a> InterfaceClass<Lent<'a, ScriptTablePart>> for ScriptTable {
    const CLASS_ID: u16 = ScriptTable::INTERFACE.class_id;

    const VERSION: u8 = ScriptTable::INTERFACE.version;

    const ATTRIBUTES: u8 = ScriptTable::INTERFACE.attributes;

    const METHODS: u8 = ScriptTable::INTERFACE.methods;

    ghost Fixed = { ScriptTableFixed };

    ghost fixed = { λ _ lent. record { name = lent.name; scripts = map script_of lent.part.now.scripts.items } };

    ghost cells = { λ _. no_cells };

    ghost reading = { script_table_reading };

    ghost refusal = { script_table_refusal };

    ghost new_value = { script_table_new_value };

    ghost kept = { λ value. value };

    ghost MeetsRule = { ScriptTableMeetsRule };

    ghost IsRow = { λ _ _ _. ⊤ };

    ghost touched = { script_table_touched };

    ghost own_sources = { λ _ _ _. false };

    ghost row_cells = { λ _ _. false };

    ghost depends_only_on_sources = { script_table_depends_only_on_sources };

    ghost writes_its_value = { script_table_writes_its_value };

    ghost keeps_rules = { script_table_keeps_rules };

    fn read(
        &self,
        alloc: Global,
        lent: Lent<ScriptTablePart>,
        index: u8,
    ) -> Result<Data, ClassFault> {
        match index {
            1 => Ok(lent.name.as_octets(alloc)?),
            ScriptTable::SCRIPTS => Ok(scripts_data(alloc, &lent.part.scripts)?),
            _ => Err(ClassFault::NoIndex),
        }
    }

    fn write(
        &mut self,
        _lent: Lent<ScriptTablePart>,
        index: u8,
        _value: Data,
    ) -> Result<Data, ClassFault> {
        match index {
            1 | ScriptTable::SCRIPTS => Err(ClassFault::NotSettable),
            _ => Err(ClassFault::NoIndex),
        }
    }

    /// Runs no action itself: it judges the method and its argument (own profile; the meter runs the actions).
    fn invoke(
        &mut self,
        _alloc: Global,
        lent: Lent<ScriptTablePart>,
        method: u8,
        argument: &Data,
        _row: Row,
    ) -> Result<(), ClassFault> {
        if method != ScriptTable::EXECUTE {
            return Err(ClassFault::NoIndex);
        }
        let Data::LongUnsigned(id) = argument else {
            return Err(ClassFault::Kind);
        };
        if !knows_script(&lent.part.scripts, *id) {
            return Err(ClassFault::UnknownScript);
        }
        Ok(())
    }

    fn touched(_op: Op) -> CellSet
        ensures { (i : ℕ) → has result i ≡ false }
    {
        CellSet::empty()
    }

    fn own_sources(_op: Op, _cell: u8) -> CellSet
        ensures { (i : ℕ) → has result i ≡ false }
    {
        CellSet::empty()
    }

    fn row_cells(_op: Op) -> CellSet
        ensures { (i : ℕ) → has result i ≡ false }
    {
        CellSet::empty()
    }
}
