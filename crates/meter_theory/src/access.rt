ghost use Rattle.std.specs.Prelude.{◌≡◌};

/// The result of a service, Data-Access-Result of IEC 62056-5-3.
#[derive(Clone, Copy, Debug, PartialEq, Eq, Drop)]
pub enum AccessCode {
    Success,
    TemporaryFailure,
    ReadWriteDenied,
    ObjectUndefined,
    ObjectClassInconsistent,
    TypeUnmatched,
    ScopeOfAccessViolated,
    OtherReason,
}

impl AccessCode {
    ghost use Rattle.meter_theory.specs.Access.{code_of};

    /// The number of the result on the wire.
    pub fn code(self) -> u8
        ensures { result ≡ code_of self }
    {
        match self {
            AccessCode::Success => 0,
            AccessCode::TemporaryFailure => 2,
            AccessCode::ReadWriteDenied => 3,
            AccessCode::ObjectUndefined => 4,
            AccessCode::ObjectClassInconsistent => 9,
            AccessCode::TypeUnmatched => 12,
            AccessCode::ScopeOfAccessViolated => 13,
            AccessCode::OtherReason => 250,
        }
    }
}
