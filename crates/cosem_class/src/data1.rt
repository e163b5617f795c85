ghost use Rattle.std.specs.Prelude.{◌≡◌, ℕ, true, false, ⊤, IfOk};
ghost use Rattle.cosem_class.specs.CellSets.{has};
ghost use Rattle.cosem_data.specs.View.{tree};
ghost use Rattle.cosem_data.specs.Kinds.{kind_of};
ghost use Rattle.meter_theory.specs.Value.{OfKind, meets};
ghost use Rattle.cosem_class.specs.DataClass.{DataFixed, value_cells, data_reading, data_refusal, data_new_value, data_touched, DataMeetsRule};
ghost use Rattle.cosem_class.specs.Parts.{data_part_of};
ghost use Rattle.cosem_class.specs.DataLaws.{data_depends_only_on_sources, data_writes_its_value, data_keeps_rules};

use crate::cell_set::CellSet;
use crate::class::{ClassFault, InterfaceClass, Lent, Op, Row};
use crate::generic::put_into;
use crate::judge::{judge_kind, kind_answer};
use crate::part::ClassPart;
use cosem_data::data::Data;
use cosem_data::kind::Kind;
use cosem_data::memory::Memory;
use cosem_data::name::LogicalName;
use meter_theory::access::AccessCode;
use meter_theory::refs::Interface;
use std::alloc::Global;
use std::mem;

/// What a plan fixes of a data object: the start of its value, whose kind is kept (IEC 62056-6-2, Data; own profile).
#[derive(Drop)]
pub struct DataPart {
    /// The start value.
    pub start: Data,
}

/// The cells of an object of class 1, Data: a value whose kind is kept (IEC 62056-6-2, Data, version 0).
#[derive(Drop)]
pub struct Data1 {
    /// Attribute 2, value, the one cell.
    pub value: Data,
}

/// The indexes of the cells.
static CELLS: [u8; 1] = [Data1::VALUE];

impl Data1 {
    /// Class 1, Data, version 0, with two attributes and no method (IEC 62056-6-2).
    pub const INTERFACE: Interface = Interface {
        class_id: 1,
        version: 0,
        attributes: 2,
        methods: 0,
    };

    /// The index of the value.
    pub const VALUE: u8 = 2;

    /// An object with the start value.
    pub fn start(alloc: Global, part: &DataPart) -> Result<Data1, Memory>
        ensures { IfOk result (λ object. tree object.value ≡ tree part.now.start) }
    {
        Ok(Data1 {
            value: part.start.try_clone(alloc)?,
        })
    }

    /// A copy.
    pub fn try_clone(&self, alloc: Global) -> Result<Data1, Memory>
        ensures { IfOk result (λ copy. tree copy.value ≡ tree self.now.value) }
    {
        Ok(Data1 {
            value: self.value.try_clone(alloc)?,
        })
    }

    /// Puts a value of the kind that is kept. The previous one is returned. It takes no memory.
    pub fn put(&mut self, lent: Lent<DataPart>, index: u8, given: Data) -> Data
        requires index { index ≡ 2 }
        requires fits { meets (OfKind (kind_of (tree lent.part.now.start))) (tree given) ≡ true }
        ensures value { tree self.new.value ≡ tree given }
        ensures previous { tree result ≡ tree self.old.value }
    {
        put_into(self, lent, index, given)
    }

    /// Puts the previous value back.
    pub fn undo(&mut self, held: Data)
        ensures { tree self.new.value ≡ tree held }
    {
        self.value = held;
    }
}

impl ClassPart for DataPart {
    ghost part = { data_part_of };

    fn interface(&self) -> Interface {
        Data1::INTERFACE
    }

    fn cells(&self) -> &'static [u8] {
        &CELLS
    }

    fn start_kind(&self, index: u8) -> Kind {
        match index {
            Data1::VALUE => self.start.kind(),
            _ => Kind::NullData,
        }
    }

    #[tactic(auto, unfolding(meter_theory::specs::Fixed::fixed_in))]
    fn fixed(&self, _alloc: Global, _index: u8) -> Result<Data, Memory> {
        Ok(Data::NullData)
    }

    fn judge(&self, _monitored: Kind, index: u8, value: &Data) -> Result<(), AccessCode> {
        match index {
            Data1::VALUE => kind_answer(self.start.kind(), value),
            _ => Err(AccessCode::TypeUnmatched),
        }
    }

    fn push_references(&self, _names: &mut Vec<LogicalName>) -> Result<(), Memory> {
        Ok(())
    }
}

impl<'a> InterfaceClass<Lent<'a, DataPart>> for Data1 {
    const CLASS_ID: u16 = Data1::INTERFACE.class_id;

    const VERSION: u8 = Data1::INTERFACE.version;

    const ATTRIBUTES: u8 = Data1::INTERFACE.attributes;

    const METHODS: u8 = Data1::INTERFACE.methods;

    ghost Fixed = { DataFixed };

    ghost fixed = { λ _ lent. record { name = lent.name; kind = kind_of (tree lent.part.now.start) } };

    ghost cells = { λ s. value_cells (tree s.value) };

    ghost reading = { data_reading };

    ghost refusal = { data_refusal };

    ghost new_value = { data_new_value };

    ghost kept = { λ value. value };

    ghost MeetsRule = { DataMeetsRule };

    ghost IsRow = { λ _ _ _. ⊤ };

    ghost touched = { data_touched };

    ghost own_sources = { λ _ _ _. false };

    ghost row_cells = { λ _ _. false };

    ghost depends_only_on_sources = { data_depends_only_on_sources };

    ghost writes_its_value = { data_writes_its_value };

    ghost keeps_rules = { data_keeps_rules };

    fn read(&self, alloc: Global, lent: Lent<DataPart>, index: u8) -> Result<Data, ClassFault> {
        match index {
            1 => Ok(lent.name.as_octets(alloc)?),
            Data1::VALUE => Ok(self.value.try_clone(alloc)?),
            _ => Err(ClassFault::NoIndex),
        }
    }

    fn write(&mut self, lent: Lent<DataPart>, index: u8, value: Data) -> Result<Data, ClassFault> {
        match index {
            Data1::VALUE => {
                judge_kind(lent.part.start.kind(), &value)?;
                Ok(mem::replace(&mut self.value, value))
            }
            1 => Err(ClassFault::NotSettable),
            _ => Err(ClassFault::NoIndex),
        }
    }

    fn invoke(
        &mut self,
        _alloc: Global,
        _lent: Lent<DataPart>,
        _method: u8,
        _argument: &Data,
        _row: Row,
    ) -> Result<(), ClassFault> {
        Err(ClassFault::NoIndex)
    }

    fn touched(op: Op) -> CellSet
        ensures { (i : ℕ) → has result i ≡ data_touched op i }
    {
        match op {
            Op::Write(Data1::VALUE) => CellSet::empty().with(Data1::VALUE),
            _ => CellSet::empty(),
        }
    }

    fn own_sources(_op: Op, _cell: u8) -> CellSet
        ensures { (i : ℕ) → has result i ≡ false }
    {
        CellSet::empty()
    }

    fn row_cells(_op: Op) -> CellSet
        ensures { (i : ℕ) → has result i ≡ false }
    {
        CellSet::empty()
    }
}
