use cosem_data::data::Data;
use cosem_data::memory::Memory;
use meter_theory::access::AccessCode;
use std::alloc::Global;

/// What the meter answers to a step.
#[derive(Drop)]
pub enum Reply {
    /// The value of an attribute, to a GET.
    Value(Data),
    /// A result without a value.
    Code(AccessCode),
    /// To a step of the meter itself.
    Quiet,
}

impl Reply {
    ghost use Rattle.std.specs.Prelude.{◌≡◌, false, IfOk, IsOk};
    ghost use Rattle.meter_core.specs.Copies.{has_value};

    /// A copy, which equals the original. The only error is that memory was refused; a reply without a value takes none.
    pub fn try_clone(&self, alloc: Global) -> Result<Reply, Memory>
        ensures equal { IfOk result (λ copy. copy ≡ self.now) }
        ensures bare { has_value self.now ≡ false → IsOk result }
    {
        Ok(match self {
            Reply::Value(value) => Reply::Value(value.try_clone(alloc)?),
            Reply::Code(code) => Reply::Code(*code),
            Reply::Quiet => Reply::Quiet,
        })
    }
}
