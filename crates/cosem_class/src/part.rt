//! What a plan fixes of an object, by its interface class.
ghost use Rattle.std.specs.Prelude.{◌≡◌, ◌++◌, map, IfOk, OnOk};
ghost use Rattle.cosem_data.specs.View.{tree};
ghost use Rattle.cosem_data.specs.Cells.{cell};
ghost use Rattle.cosem_data.specs.Kinds.{kind_of};
ghost use Rattle.cosem_data.specs.declared.name.LogicalName.{LogicalName as NameValue};
ghost use Rattle.meter_theory.specs.Fixed.{fixed_in};
ghost use Rattle.meter_theory.specs.Plan.{Part, class_of, interface_of, start_of};
ghost use Rattle.meter_theory.specs.State.{keys, value};
ghost use Rattle.cosem_class.specs.Judged.{rule_answer};
ghost use Rattle.cosem_class.specs.Parts.{references, rule_watching};

use cosem_data::data::Data;
use cosem_data::kind::Kind;
use cosem_data::memory::Memory;
use cosem_data::name::LogicalName;
use meter_theory::access::AccessCode;
use meter_theory::refs::Interface;
use std::alloc::Global;

/// What a plan fixes of an object of a class, with the start values of its cells: what the class says of it. The objects
/// themselves are an [`InterfaceClass`](crate::class::InterfaceClass).
pub trait ClassPart {
    // The part that it is in a plan.
    ghost part: { Self → Part };

    /// The interface class, with its highest attribute and method (IEC 62056-6-2).
    fn interface(&self) -> Interface
        ensures { result ≡ interface_of (part self.now) };

    /// The indexes of the attributes that can change, its cells, in their order; an inner cell has index 0 (own profile).
    fn cells(&self) -> &'static [u8]
        ensures { (name : NameValue) → map (cell (class_of (part self.now)) name) result.now
            ≡ keys (start_of name (part self.now)) };

    /// The kind of the value with which the cell at this index starts; that of null-data where there is no cell.
    fn start_kind(&self, index: u8) -> Kind
        ensures { (name : NameValue) → result
            ≡ kind_of (value (start_of name (part self.now)) (cell (class_of (part self.now)) name index)) };

    /// A copy of a fixed attribute other than the logical name; null-data at any other index.
    fn fixed(&self, alloc: Global, index: u8) -> Result<Data, Memory>
        ensures { IfOk result (λ value. tree value ≡ fixed_in (part self.now) index) };

    /// Whether a value may be put at this index, where a register monitor watches a value of this kind: `TypeUnmatched` for
    /// another tag and for an index without a settable cell, `OtherReason` for the right tag against the rest of the cell's
    /// rule (own profile; the codes are those of IEC 62056-5-3, Data-Access-Result).
    fn judge(&self, monitored: Kind, index: u8, value: &Data) -> Result<(), AccessCode>
        ensures { result ≡ rule_answer (rule_watching monitored (part self.now) index) (tree value.now) };

    /// Puts the names of the objects to which it refers behind others, in its order. The only error is want of memory.
    fn push_references(&self, names: &mut Vec<LogicalName>) -> Result<(), Memory>
        ensures { OnOk result (names.new.items ≡ names.old.items ++ references (part self.now)) };
}
