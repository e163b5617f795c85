//! The faults of a configuration: what is wrong, and where.
ghost use Rattle.std.specs.Prelude.{◌≡◌};
ghost use Rattle.config_text.specs.declared.fault.ConfigFault.TheVariants as faults;
ghost use Rattle.config_text.specs.declared.fault.TableFault.TheVariants as tables;

use crate::cause::Cause;
use cosem_data::memory::Memory;
use std::alloc::{AllocError, AllocFailed};
use std::marker::Model;

/// A fault of a configuration.
#[derive(Debug, Drop)]
pub struct PlacedFault {
    /// What is wrong.
    pub cause: Cause,
    /// Where: the path in the text, with indexes from 0, as `object[6].name`. A key that TOML doesn't take without quotation marks
    /// stands between them, as `client[0]."a.b"`.
    pub place: String,
}

impl Model for PlacedFault {
    ghost use Rattle.std.specs.Prelude.{string_bytes};
    ghost use Rattle.config_text.specs.Fault.{Fault};

    ghost Value = { Fault };

    ghost view = { λ fault. record { cause = fault.cause; place = string_bytes fault.place } };
}

/// Why a configuration was refused, with all that the pass found which refuses it.
#[derive(Debug, Drop)]
pub enum ConfigFault {
    /// C0: memory was refused.
    Memory,
    /// The faults with the least code that is met, in the order in which they are looked for. There is one at least, so the first
    /// stands apart.
    Found {
        first: PlacedFault,
        others: Vec<PlacedFault>,
    },
}

impl From<AllocError> for ConfigFault {
    ghost from_gives = { λ _ e. e ≡ faults.Memory };

    fn from(_: AllocError) -> Self {
        ConfigFault::Memory
    }
}

impl From<Memory> for ConfigFault {
    ghost from_gives = { λ _ e. e ≡ faults.Memory };

    fn from(_: Memory) -> Self {
        ConfigFault::Memory
    }
}

impl<T: Drop> From<AllocFailed<T>> for ConfigFault {
    ghost from_gives = { λ _ e. e ≡ faults.Memory };

    fn from(_: AllocFailed<T>) -> Self {
        ConfigFault::Memory
    }
}

/// Why a table isn't read, with all faults of the first pass that finds any.
#[derive(Debug, Drop)]
pub(crate) enum TableFault {
    /// C0: memory was refused.
    Memory,
    /// C2: keys are missing or unknown.
    Keys {
        first: PlacedFault,
        others: Vec<PlacedFault>,
    },
    /// C3: no key is missing or unknown, and there are values that their keys don't take.
    Values {
        first: PlacedFault,
        others: Vec<PlacedFault>,
    },
}

impl From<AllocError> for TableFault {
    ghost from_gives = { λ _ e. e ≡ tables.Memory };

    fn from(_: AllocError) -> Self {
        TableFault::Memory
    }
}

impl From<Memory> for TableFault {
    ghost from_gives = { λ _ e. e ≡ tables.Memory };

    fn from(_: Memory) -> Self {
        TableFault::Memory
    }
}

impl<T: Drop> From<AllocFailed<T>> for TableFault {
    ghost from_gives = { λ _ e. e ≡ tables.Memory };

    fn from(_: AllocFailed<T>) -> Self {
        TableFault::Memory
    }
}
