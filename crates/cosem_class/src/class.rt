//! What an interface class promises of its objects.
ghost use Rattle.std.specs.Prelude.{◌≡◌, ℕ, Bool, List, Option, Some, Result, IfOk, OnOk, OnErr, Err, []};
ghost use Rattle.cosem_data.specs.Tree.{Tree};
ghost use Rattle.cosem_data.specs.View.{tree};
ghost use Rattle.cosem_class.specs.CellSets.{has};
ghost use Rattle.cosem_class.specs.Objects.{Cells, AnswersAs, RefusedAs, cells_after, DependsOnlyOnSources, WritesWhatIsKept, KeepsRules};
ghost use Rattle.cosem_class.specs.declared.class.Op.{Op};
ghost use Rattle.cosem_class.specs.declared.class.Op.TheVariants as ops;
ghost use Rattle.cosem_class.specs.declared.class.ClassFault.{ClassFault};

use crate::cell_set::CellSet;
use cosem_data::data::{Data, Items};
use cosem_data::memory::Memory;
use cosem_data::name::LogicalName;
use meter_theory::access::AccessCode;
use std::alloc::Global;

/// The captured values that a capture is given, one for each captured cell, in order.
pub type Row = Items;

/// What may be done to an object.
#[derive(Clone, Copy, Debug, PartialEq, Eq)]
pub enum Op {
    /// A write of the attribute with this index.
    Write(u8),
    /// A call of the method with this index.
    Invoke(u8),
    /// A register monitor remembers the monitored value (own profile).
    Remember,
}

/// Why a class refuses a reading or an operation. The object is then unchanged. `AccessCode::from` tells the result of
/// the service (IEC 62056-5-3, Data-Access-Result).
#[derive(Clone, Copy, Debug, PartialEq, Eq)]
pub enum ClassFault {
    /// The class has no such attribute or method, or the attribute has no value.
    NoIndex,
    /// The attribute is fixed.
    NotSettable,
    /// The value has another tag than the cell asks for: type-unmatched.
    Kind,
    /// The value has the right tag and is otherwise against the cell's rule: other-reason (own profile).
    Rule,
    /// No script has this number: other-reason (own profile).
    UnknownScript,
    /// Memory was refused: temporary-failure (own profile).
    Memory,
}

impl From<Memory> for ClassFault {
    ghost use Rattle.std.specs.Prelude.{◌≡◌};
    ghost use Rattle.cosem_class.specs.declared.class.ClassFault.TheVariants as faults;

    ghost from_gives = { λ _ fault. fault ≡ faults.Memory };

    fn from(_: Memory) -> ClassFault {
        ClassFault::Memory
    }
}

impl From<ClassFault> for AccessCode {
    ghost use Rattle.std.specs.Prelude.{◌≡◌};
    ghost use Rattle.cosem_class.specs.Judged.{access_of};

    ghost from_gives = { λ fault code. code ≡ access_of fault };

    fn from(fault: ClassFault) -> AccessCode {
        match fault {
            ClassFault::Rule | ClassFault::UnknownScript => AccessCode::OtherReason,
            ClassFault::Memory => AccessCode::TemporaryFailure,
            ClassFault::NoIndex | ClassFault::NotSettable | ClassFault::Kind => {
                AccessCode::TypeUnmatched
            }
        }
    }
}

/// What a plan lends of an object for an operation: its logical name, and what the plan fixes of it.
#[derive(Clone, Copy)]
pub struct Lent<'a, Part> {
    /// Attribute 1, logical_name.
    pub name: LogicalName,
    /// What the plan fixes by the object's class.
    pub part: &'a Part,
}

/// An interface class, by what its objects are: cells, to which the plan lends a fixed part at each operation. Five laws
/// hold of each class:
///
/// - a reading depends on its cell alone, or on the fixed part (the type of `reading` says so);
/// - an operation changes only the cells that it touches (the form of `ok` says so);
/// - a touched cell's new value depends on nothing but the fixed part, the argument, its sources and perhaps the row;
/// - a refusal other than for memory depends on the fixed part and the argument, never on a cell (the type of `refusal`);
/// - cells that meet their rules meet them afterwards.
///
/// And a write that is not refused puts its value at its index, or what the class keeps of it: a clock keeps the moment alone.
pub trait InterfaceClass<Lent> {
    /// class_id of IEC 62056-6-2.
    const CLASS_ID: u16;

    /// The version of the class (IEC 62056-6-2).
    const VERSION: u8;

    /// The highest attribute index. Attribute 1 is logical_name.
    const ATTRIBUTES: u8;

    /// The highest method index, 0 for a class without methods.
    const METHODS: u8;

    // What no operation changes.
    ghost Fixed: { Type 0 };

    ghost fixed: { Self → Lent → Fixed };

    // What changes: a value at each index that has a cell.
    ghost cells: { Self → Cells };

    // The answer of a reading, by the fixed part and the cell at the index alone.
    ghost reading: { Fixed → ℕ → Option Tree → Result Tree ClassFault };

    // Why an operation is refused, by the fixed part and the argument, and no cell.
    ghost refusal: { Fixed → Op → Tree → Option ClassFault };

    // The new value of a touched cell, if the operation is not refused. Each other cell stays.
    ghost new_value: { Fixed → Op → Tree → List Tree → Cells → ℕ → Option Tree };

    // What a cell keeps of a value that is written: the value, but in a clock.
    ghost kept: { Tree → Tree };

    // The rule that a cell's value meets: kind and limits.
    ghost MeetsRule: { Fixed → ℕ → Option Tree → Type 0 };

    // The rows that an operation may be given.
    ghost IsRow: { Fixed → Op → List Tree → Type 0 };

    ghost touched: { Op → ℕ → Bool };

    ghost own_sources: { Op → ℕ → ℕ → Bool };

    ghost row_cells: { Op → ℕ → Bool };

    /// The value of an attribute, a copy, as the service GET gives it. `NoIndex` where the attribute is none of the class or
    /// has no value, `Memory` where the copy gets none.
    fn read(&self, alloc: Global, lent: Lent, index: u8) -> Result<Data, ClassFault>
        ensures { AnswersAs result (reading (fixed self.now lent) index (cells self.now index)) };

    /// Sets the value of an attribute, as the service SET does, and returns the previous one. `NoIndex` and `NotSettable`
    /// tell of the index, `Kind` and `Rule` of the value.
    fn write(&mut self, lent: Lent, index: u8, value: Data) -> Result<Data, ClassFault>
        ensures refused { RefusedAs result
            (refusal (fixed self.old lent) (ops.Write index) (tree value)) }
        ensures fixed { fixed self.new lent ≡ fixed self.old lent }
        ensures ok { OnOk result ((i : ℕ) → cells self.new i
            ≡ cells_after (touched (ops.Write index))
            (new_value (fixed self.old lent) (ops.Write index) (tree value) [])
            (cells self.old) i) }
        ensures previous { IfOk result (λ old. cells self.old index ≡ Some (tree old)) }
        ensures err { OnErr result (self.new ≡ self.old) }
        ensures no_memory { result ≡ Err ClassFault.Memory → ⊥ };

    /// Calls a method, as the service ACTION does, of an object whose cells meet their rules. A capture is given its row, and
    /// no other method looks at it. `NoIndex` where the class has no such method, `Memory` where a new value gets none.
    fn invoke(
        &mut self,
        alloc: Global,
        lent: Lent,
        method: u8,
        argument: &Data,
        row: Row,
    ) -> Result<(), ClassFault>
        requires rules { (i : ℕ) → MeetsRule (fixed self.old lent) i (cells self.old i) }
        requires row { IsRow (fixed self.old lent) (ops.Invoke method) row }
        ensures refused { RefusedAs result
            (refusal (fixed self.old lent) (ops.Invoke method) (tree argument.now)) }
        ensures fixed { fixed self.new lent ≡ fixed self.old lent }
        ensures ok { OnOk result ((i : ℕ) → cells self.new i
            ≡ cells_after (touched (ops.Invoke method))
            (new_value (fixed self.old lent) (ops.Invoke method) (tree argument.now) row)
            (cells self.old) i) }
        ensures err { OnErr result (self.new ≡ self.old) };

    /// The cells that an operation may change.
    fn touched(op: Op) -> CellSet
        ensures { (i : ℕ) → has result i ≡ touched op i };

    /// The object's own cells on which a touched cell's new value may depend.
    fn own_sources(op: Op, cell: u8) -> CellSet
        ensures { (i : ℕ) → has result i ≡ own_sources op cell i };

    /// The touched cells whose new value may depend on the row.
    fn row_cells(op: Op) -> CellSet
        ensures { (i : ℕ) → has result i ≡ row_cells op i };

    // A touched cell's new value depends on nothing but the fixed part, the argument, its sources and perhaps the row.
    ghost depends_only_on_sources: { DependsOnlyOnSources touched own_sources row_cells new_value };

    // A write that is not refused puts at its index what is kept of its value.
    ghost writes_its_value: { WritesWhatIsKept refusal touched new_value kept };

    // What met its rule meets it afterwards.
    ghost keeps_rules: { KeepsRules refusal IsRow MeetsRule touched new_value };
}
