use cosem_data::data::Data;
use cosem_data::memory::Memory;
use std::alloc::Global;

/// A value or a parameter that a request brings along (IEC 62056-5-3, SET, ACTION and selective access).
#[derive(Drop)]
pub enum Argument {
    /// The request has none.
    Absent,
    /// The value that its bytes encode.
    Value(Data),
    /// Bytes that are no encoding of one value to their end (own profile).
    Unreadable,
}

impl Argument {
    ghost use Rattle.std.specs.Prelude.{◌≡◌, IfOk};
    ghost use Rattle.meter_theory.specs.Rights as rights;
    ghost use Rattle.object_model.specs.ArgumentView.{argument_of};

    /// The number of a script in the parameter of execute, a long-unsigned; None for any other (IEC 62056-6-2, Script
    /// table, execute).
    pub fn script_number(&self) -> Option<u16>
        ensures { result ≡ rights.script_number (argument_of self.now) }
    {
        match self {
            Argument::Value(Data::LongUnsigned(id)) => Some(*id),
            _ => None,
        }
    }

    /// A copy, which equals the original.
    pub fn try_clone(&self, alloc: Global) -> Result<Argument, Memory>
        ensures { IfOk result (λ copy. copy ≡ self.now) }
    {
        Ok(match self {
            Argument::Absent => Argument::Absent,
            Argument::Value(value) => Argument::Value(value.try_clone(alloc)?),
            Argument::Unreadable => Argument::Unreadable,
        })
    }
}
