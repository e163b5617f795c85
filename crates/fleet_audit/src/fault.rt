ghost use Rattle.std.specs.Prelude.{◌≡◌};

use thiserror::Error;

/// Why an audit ended early (own profile).
#[derive(Clone, Copy, Debug, PartialEq, Eq, Drop, Error)]
#[error("{}", self.words())]
pub enum AuditFault {
    /// 1: memory was refused for the list of verdicts. Where it is refused in a judgement, the verdict says so.
    Memory,
    /// 2: the gate gave up.
    GaveUp,
}

impl AuditFault {
    ghost use Rattle.fleet_audit.specs.Faults.{fault_words};

    /// The fault as it is told (own profile).
    pub fn words(self) -> &'static str
        ensures { result.now ≡ fault_words self }
    {
        match self {
            AuditFault::Memory => "out of memory",
            AuditFault::GaveUp => "the gate gave up",
        }
    }
}
