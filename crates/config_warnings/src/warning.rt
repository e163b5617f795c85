ghost use Rattle.std.specs.Prelude.{◌≡◌, IfOk, string_bytes};
ghost use Rattle.config_warnings.specs.Words.{path_of, words_of};

use cosem_data::memory::Memory;
use std::alloc::Global;

/// What is allowed and most likely a slip (own profile). Places count from 0.
#[derive(Clone, Copy, Debug, Drop, PartialEq, Eq)]
pub enum Warning {
    /// An execution time of a schedule names no date.
    NoSuchDate {
        /// The place of the schedule among the plan's objects.
        object: usize,
        /// The place of the time in its list.
        time: usize,
    },
    /// A client has no right.
    NoRight {
        /// Its place among the plan's clients.
        client: usize,
    },
    /// Nothing runs a script.
    NeverRun {
        /// The place of its table among the plan's objects.
        object: usize,
        /// Its place in the table.
        script: usize,
    },
}

impl Warning {
    /// The path to it in the text of the configuration, as `object[5].times[0]`: objects, clients and scripts of a plan stand in the
    /// order of the text.
    pub fn path(self, alloc: Global) -> Result<String, Memory>
        ensures { IfOk result (λ path. string_bytes path ≡ path_of self) }
    {
        let path = match self {
            Warning::NoSuchDate { object, time } => {
                format!(in alloc; "object[{object}].times[{time}]")?
            }
            Warning::NoRight { client } => format!(in alloc; "client[{client}].name")?,
            Warning::NeverRun { object, script } => {
                format!(in alloc; "object[{object}].script[{script}].id")?
            }
        };
        Ok(path)
    }

    /// What is told of it.
    pub fn words(self) -> &'static str
        ensures { result.now ≡ words_of self }
    {
        match self {
            Warning::NoSuchDate { .. } => "no calendar has this date",
            Warning::NoRight { .. } => "the client has no right",
            Warning::NeverRun { .. } => "nothing runs this script",
        }
    }
}
