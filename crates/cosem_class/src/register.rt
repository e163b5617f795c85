ghost use Rattle.std.specs.Prelude.{◌≡◌, ℕ, true, false, ⊤, IfOk};
ghost use Rattle.cosem_data.specs.View.{tree};
ghost use Rattle.cosem_data.specs.Kinds.{kind_of};
ghost use Rattle.meter_theory.specs.Value.{OfKind, meets};
ghost use Rattle.cosem_class.specs.CellSets.{has};
ghost use Rattle.cosem_class.specs.DataClass.{value_cells};
ghost use Rattle.cosem_class.specs.RegisterClass.{RegisterFixed, register_reading, register_refusal, register_new_value, register_touched, RegisterMeetsRule};
ghost use Rattle.cosem_class.specs.Parts.{register_part_of};
ghost use Rattle.cosem_class.specs.RegisterLaws.{register_depends_only_on_sources, register_writes_its_value, register_keeps_rules};

use crate::cell_set::CellSet;
use crate::class::{ClassFault, InterfaceClass, Lent, Op, Row};
use crate::generic::put_into;
use crate::judge::{judge_kind, kind_answer};
use crate::part::ClassPart;
use crate::shapes::scaler_unit_data;
use cosem_data::data::Data;
use cosem_data::kind::Kind;
use cosem_data::memory::Memory;
use cosem_data::name::LogicalName;
use meter_theory::access::AccessCode;
use meter_theory::refs::{Interface, ScalerUnit};
use std::alloc::Global;
use std::mem;

/// What a plan fixes of a register, and the start of its value (IEC 62056-6-2, Register).
#[derive(Drop)]
pub struct RegisterPart {
    /// The start value, a number, whose kind is kept.
    pub start: Data,
    /// What a reset puts.
    pub default: Data,
    /// Attribute 3, scaler_unit, which is fixed.
    pub scaler_unit: ScalerUnit,
}

/// The cells of an object of class 3, Register: a number whose kind is kept (IEC 62056-6-2, Register, version 0).
#[derive(Drop)]
pub struct Register {
    /// Attribute 2, value, the one cell: a number in the scale and unit of the part.
    pub value: Data,
}

/// The indexes of the cells.
static CELLS: [u8; 1] = [Register::VALUE];

impl Register {
    /// Class 3, Register, version 0, with three attributes and one method, reset (IEC 62056-6-2).
    pub const INTERFACE: Interface = Interface {
        class_id: 3,
        version: 0,
        attributes: 3,
        methods: 1,
    };

    /// The index of the value.
    pub const VALUE: u8 = 2;

    /// The index of scaler and unit.
    pub(crate) const SCALER_UNIT: u8 = 3;

    /// The method that puts the default.
    pub const RESET: u8 = 1;

    /// An object with the start value.
    pub fn start(alloc: Global, part: &RegisterPart) -> Result<Register, Memory>
        ensures { IfOk result (λ object. tree object.value ≡ tree part.now.start) }
    {
        Ok(Register {
            value: part.start.try_clone(alloc)?,
        })
    }

    /// A copy.
    pub fn try_clone(&self, alloc: Global) -> Result<Register, Memory>
        ensures { IfOk result (λ copy. tree copy.value ≡ tree self.now.value) }
    {
        Ok(Register {
            value: self.value.try_clone(alloc)?,
        })
    }

    /// Puts a value of the kind that is kept. The previous one is returned. It takes no memory.
    pub fn put(&mut self, lent: Lent<RegisterPart>, index: u8, given: Data) -> Data
        requires index { index ≡ 2 }
        requires fits { meets (OfKind (kind_of (tree lent.part.now.start))) (tree given) ≡ true }
        ensures value { tree self.new.value ≡ tree given }
        ensures previous { tree result ≡ tree self.old.value }
    {
        put_into(self, lent, index, given)
    }

    /// Puts the previous value back.
    pub fn undo(&mut self, held: Data)
        ensures { tree self.new.value ≡ tree held }
    {
        self.value = held;
    }
}

impl ClassPart for RegisterPart {
    ghost part = { register_part_of };

    fn interface(&self) -> Interface {
        Register::INTERFACE
    }

    fn cells(&self) -> &'static [u8] {
        &CELLS
    }

    fn start_kind(&self, index: u8) -> Kind {
        match index {
            Register::VALUE => self.start.kind(),
            _ => Kind::NullData,
        }
    }

    /// Attribute 3, scaler_unit (IEC 62056-6-2, Register).
    #[tactic(auto, unfolding(meter_theory::specs::Fixed::fixed_in))]
    fn fixed(&self, alloc: Global, index: u8) -> Result<Data, Memory> {
        match index {
            Register::SCALER_UNIT => scaler_unit_data(alloc, self.scaler_unit),
            _ => Ok(Data::NullData),
        }
    }

    fn judge(&self, _monitored: Kind, index: u8, value: &Data) -> Result<(), AccessCode> {
        match index {
            Register::VALUE => kind_answer(self.start.kind(), value),
            _ => Err(AccessCode::TypeUnmatched),
        }
    }

    fn push_references(&self, _names: &mut Vec<LogicalName>) -> Result<(), Memory> {
        Ok(())
    }
}

impl<'a> InterfaceClass<Lent<'a, RegisterPart>> for Register {
    const CLASS_ID: u16 = Register::INTERFACE.class_id;

    const VERSION: u8 = Register::INTERFACE.version;

    const ATTRIBUTES: u8 = Register::INTERFACE.attributes;

    const METHODS: u8 = Register::INTERFACE.methods;

    ghost Fixed = { RegisterFixed };

    ghost fixed = { λ _ lent. record {
      name = lent.name;
      start = tree lent.part.now.start;
      default = tree lent.part.now.default;
      scaler_unit = lent.part.now.scaler_unit;
    } };

    ghost cells = { λ s. value_cells (tree s.value) };

    ghost reading = { register_reading };

    ghost refusal = { register_refusal };

    ghost new_value = { register_new_value };

    ghost kept = { λ value. value };

    ghost MeetsRule = { RegisterMeetsRule };

    ghost IsRow = { λ _ _ _. ⊤ };

    ghost touched = { register_touched };

    ghost own_sources = { λ _ _ _. false };

    ghost row_cells = { λ _ _. false };

    ghost depends_only_on_sources = { register_depends_only_on_sources };

    ghost writes_its_value = { register_writes_its_value };

    ghost keeps_rules = { register_keeps_rules };

    fn read(&self, alloc: Global, lent: Lent<RegisterPart>, index: u8) -> Result<Data, ClassFault> {
        match index {
            1 => Ok(lent.name.as_octets(alloc)?),
            Register::VALUE => Ok(self.value.try_clone(alloc)?),
            Register::SCALER_UNIT => Ok(scaler_unit_data(alloc, lent.part.scaler_unit)?),
            _ => Err(ClassFault::NoIndex),
        }
    }

    fn write(
        &mut self,
        lent: Lent<RegisterPart>,
        index: u8,
        value: Data,
    ) -> Result<Data, ClassFault> {
        match index {
            Register::VALUE => {
                judge_kind(lent.part.start.kind(), &value)?;
                Ok(mem::replace(&mut self.value, value))
            }
            1 | Register::SCALER_UNIT => Err(ClassFault::NotSettable),
            _ => Err(ClassFault::NoIndex),
        }
    }

    fn invoke(
        &mut self,
        alloc: Global,
        lent: Lent<RegisterPart>,
        method: u8,
        _argument: &Data,
        _row: Row,
    ) -> Result<(), ClassFault> {
        if method != Register::RESET {
            return Err(ClassFault::NoIndex);
        }
        self.value = lent.part.default.try_clone(alloc)?;
        Ok(())
    }

    fn touched(op: Op) -> CellSet
        ensures { (i : ℕ) → has result i ≡ register_touched op i }
    {
        match op {
            Op::Write(Register::VALUE) | Op::Invoke(Register::RESET) => {
                CellSet::empty().with(Register::VALUE)
            },
            _ => CellSet::empty(),
        }
    }

    fn own_sources(_op: Op, _cell: u8) -> CellSet
        ensures { (i : ℕ) → has result i ≡ false }
    {
        CellSet::empty()
    }

    fn row_cells(_op: Op) -> CellSet
        ensures { (i : ℕ) → has result i ≡ false }
    {
        CellSet::empty()
    }
}
