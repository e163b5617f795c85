//! What is told beside a verdict or a list, as far as there is memory for it (own profile).
ghost use Rattle.std.specs.Prelude.{◌≡◌, []};
ghost use Rattle.meter_server.specs.Remarks as spec;
ghost use Rattle.meter_server.specs.Remarks.{GoesOn, WritesError, ending_of, told_of, told_text};

use cosem_data::memory::Memory;
use std::alloc::Global;
use std::io::Write;
use whole_writes::{WriteFailed, write_whole};

/// What stands behind lines where memory was refused for more.
const NO_MORE: &str = "cosem-flow: no memory to tell more\n";

/// What explains a verdict, and what is warned of.
#[derive(Debug, Drop)]
pub struct Remarks {
    /// Whole lines.
    pub lines: String,
    /// Whether memory was refused for more of them, which is told behind them.
    pub is_cut: bool,
}

impl Remarks {
    /// There is nothing to tell.
    pub(crate) fn none(alloc: Global) -> Self
        ensures { told_of result ≡ spec.whole [] }
    {
        Remarks::of(alloc, Ok(String::new(alloc)))
    }

    /// The lines that were made; none, where memory was refused for them.
    pub(crate) fn of(alloc: Global, made: Result<String, Memory>) -> Self
        ensures { told_of result ≡ spec.made made }
    {
        match made {
            Ok(lines) => Remarks {
                lines,
                is_cut: false,
            },
            Err(_) => Remarks {
                lines: String::new(alloc),
                is_cut: true,
            },
        }
    }

    /// These, and others behind them; where memory was refused for these, or is for others behind them, these are all.
    pub(crate) fn with(self, others: &Remarks) -> Self
        ensures { GoesOn (told_of self) (told_of others.now) (told_of result) }
    {
        if self.is_cut {
            return self;
        }
        let Remarks { mut lines, .. } = self;
        let is_cut = match lines.push_str(&others.lines) {
            Ok(()) => others.is_cut,
            Err(_) => true,
        };
        Remarks { lines, is_cut }
    }

    /// Writes them on the error stream, and behind them that memory was refused for more, where that was so. This takes no memory.
    pub(crate) fn write<E: Write>(&self, errors: &mut E) -> Result<(), WriteFailed>
        ensures { WritesError (told_text (told_of self.now)) (E.contents errors.old) (E.contents errors.new) result }
    {
        write_whole(errors, self.lines.as_bytes())?;
        write_whole(errors, self.ending().as_bytes())
    }

    /// What stands behind the lines.
    fn ending(&self) -> &'static str
        ensures { result.now ≡ ending_of self.now.is_cut }
    {
        if self.is_cut { NO_MORE } else { "" }
    }
}
