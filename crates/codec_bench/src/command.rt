ghost use Rattle.std.specs.Prelude.{◌≡◌, IfSome, Some};

use crate::fault::Fault;

/// What a pass does with the bytes of the input.
#[derive(Clone, Copy)]
pub(crate) enum Pass {
    /// Copies them by a plain loop, one after the other.
    Copy,
    /// Reads the value in front of them.
    Read,
    /// Writes that value, which is read once before the passes.
    Write,
}

/// What the program is asked to do: so many passes of one kind.
#[derive(Clone, Copy)]
pub struct Command {
    /// The kind of each pass.
    pub pass: Pass,
    /// How many passes.
    pub times: u32,
}

impl Command {
    ghost use Rattle.codec_bench.specs.Words.{IsCommand};

    /// The command of two words: `copy`, `read` or `write`, and the number of passes in decimal
    /// digits, below 2^32.
    pub fn read(name: &str, count: &str) -> Option<Command>
        ensures found { IfSome result (λ command. IsCommand command name.now count.now) }
        ensures only { (command : Command) → IsCommand command name.now count.now
            → result ≡ Some command }
    {
        let pass = match name {
            "copy" => Pass::Copy,
            "read" => Pass::Read,
            "write" => Pass::Write,
            _ => return None,
        };
        match count.parse() {
            Ok(times) => Some(Command { pass, times }),
            Err(_) => None,
        }
    }
}

/// How a command ended.
#[derive(Clone, Copy)]
pub(crate) enum Outcome {
    /// It did what it was asked to do.
    Done,
    /// The command line can't be used.
    Usage,
    /// A fault stopped it.
    Fault(Fault),
}

impl Outcome {
    ghost use Rattle.codec_bench.specs.Status.{status_of};

    /// The exit status: 0 done, 2 a command line that can't be used, 3 a fault.
    pub fn status(self) -> u8
        ensures { result ≡ status_of self }
    {
        match self {
            Outcome::Done => 0,
            Outcome::Usage => 2,
            Outcome::Fault(_) => 3,
        }
    }
}
