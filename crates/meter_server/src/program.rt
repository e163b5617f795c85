//! What the program does with its words: which files it reads, what it tells and where, and its exit status (own profile).
ghost use Rattle.std.specs.Prelude.{◌≡◌, ◌⊎◌, IfOk, map, string_bytes, true};
ghost use Rattle.command_words.specs.Commands.{command_of};
ghost use Rattle.meter_server.specs.Answering.{Does, Runs, TellsError, is_quiet};
ghost use Rattle.whole_writes.specs.Written.{WritesText};
ghost use Rattle.meter_server.specs.Outcomes.{output_of};
ghost use Rattle.meter_server.specs.Program.{AreMistaken, AskForHelp, TellsVerdict};

use crate::answering::answer;
use crate::outcome::Outcome;
use crate::output::Output;
use command_words::{WordsFault, read_words};
use cosem_data::memory::Memory;
use line_sources::file::Opens;
use std::alloc::Global;
use std::io::{Read, Write};
use std::net::{Net, TcpListener, TcpStream};
use std::sync::Wait;
use std::thread::Threads;
use std::time::Clock;
use step_keeping::keeper::Keeps;
use step_keeping::recalling::Recalls;
use step_stores::stores::Stores;
use text_files::TextFiles;
use whole_writes::fault::ListFault;
use whole_writes::{WriteFailed, write_whole};

/// Does what the words of a command line ask for, the program's name first, and answers the exit status: `demo` and `run CONFIG`
/// answer the step lines of the input on the output, by the configuration in the file that they name, and with `-v` tell of each
/// line on the error stream; `edges CONFIG` and `label CONFIG` print its edges, with `--format dot` as a graph, and its least labels
/// there; `check CONFIG LABELS` comes to a verdict on it and on the labels in a second file, which is read only where the configuration
/// has no fault, and with `--all` prints all that fails behind the verdict; `audit NAME` comes to one on each of many, by many workers,
/// with `--names` of a file's names too, with `--explain` tells on the error stream what explains them, and with `--progress` how far it is; `session CONFIG` answers the frames of the input, those of one
/// connection, on the output; `serve CONFIG LABELS` answers connections over TCP by a live meter, where the verdict accepts, and takes
/// the meter's own steps from the lines of the input; `encode` and `decode` translate the input onto the output, with
/// `--value` single values and not steps.
/// A verdict stands on the output and what explains it on the error stream; help and the version stand on the output where the words
/// ask for these; any other fault stands on the error stream. Where the output's reader has gone nothing more is told.
/// `rt` is the handle that starts threads, waits, opens sockets and tells the time; `files` reads the files that the words name, `stores`
/// opens that which keeps the steps of a live meter, and `opener` that which the lines of its own steps come from.
pub fn run_program<H, F, S, K, P, L, D, I, O, E>(
    rt: &H,
    files: &F,
    stores: &S,
    opener: &L,
    words: &[String],
    input: &mut I,
    output: &mut O,
    errors: &mut E,
) -> u8
where
    H: AllocGlobal
        + Clock
        + Net<Stream = TcpStream, Listener = TcpListener>
        + Threads
        + Wait
        + Sync,
    F: TextFiles + Sync,
    S: Stores<K, P>,
    K: Keeps + Drop + Send,
    P: Recalls + Drop,
    L: Opens<D> + Sync,
    D: Read + Drop + Send,
    I: Read + Send,
    O: Output,
    E: Write + Send,
    // What the words ask for is done, and then told.
    ensures runs { Runs (F.may_read files.now) (map string_bytes words.now)
        (record { unread = I.remaining input.old; written = O.contents output.old })
        (record { unread = I.remaining input.new; written = O.contents output.new })
        (E.contents errors.old) (E.contents errors.new) result }
    // A wrong command line has status 2, unless memory was refused.
    ensures mistaken { AreMistaken (map string_bytes words.now) → (result ≡ 2) ⊎ (result ≡ 3) }
    // Help and the version have status 0, unless memory was refused or they can't be written.
    ensures helped { AskForHelp (map string_bytes words.now) →
        (result ≡ 0) ⊎ (result ≡ 3) ⊎ (result ≡ 141) }
{
    let outcome = asked(rt, files, stores, opener, words, input, output, errors);
    let outcome = with_verdict(rt.alloc(), outcome, output);
    let outcome = outcome.unless_closed(output.is_closed());
    // A write that fails there ends the telling: no stream is left to tell of it.
    let _ = write_error(rt.alloc(), &outcome, errors);
    outcome.status()
}

/// Does what words ask for.
fn asked<H, F, S, K, P, L, D, I, O, E>(
    rt: &H,
    files: &F,
    stores: &S,
    opener: &L,
    words: &[String],
    input: &mut I,
    output: &mut O,
    errors: &mut E,
) -> Outcome
where
    H: AllocGlobal
        + Clock
        + Net<Stream = TcpStream, Listener = TcpListener>
        + Threads
        + Wait
        + Sync,
    F: TextFiles + Sync,
    S: Stores<K, P>,
    K: Keeps + Drop + Send,
    P: Recalls + Drop,
    L: Opens<D> + Sync,
    D: Read + Drop + Send,
    I: Read + Send,
    O: Write,
    E: Write + Send,
    ensures does { Does (F.may_read files.now) (map string_bytes words.now)
        (record { unread = I.remaining input.old; written = O.contents output.old })
        (record { unread = I.remaining input.new; written = O.contents output.new }) result }
    ensures quiet { is_quiet (command_of (map string_bytes words.now)) ≡ true →
        E.contents errors.new ≡ E.contents errors.old }
{
    let Ok(texts) = texts_of(rt.alloc(), words) else {
        return Outcome::Words(WordsFault::Memory);
    };
    match read_words(rt.alloc(), &texts) {
        Ok(command) => answer(rt, files, stores, opener, command, input, output, errors),
        Err(fault) => Outcome::Words(fault),
    }
}

/// The words as texts that are lent.
fn texts_of(alloc: Global, words: &[String]) -> Result<Vec<&str>, Memory>
    ensures { IfOk result (λ texts. map (λ text. text.now) texts.items ≡ map string_bytes words.now) }
{
    let mut texts = Vec::with_capacity(alloc, words.len())?;
    for word in words {
        texts.push(word.as_str())?;
    }
    Ok(texts)
}

/// Writes what a command tells on the output behind what it wrote, and says how the command ended then: as before, or that this
/// can't be written whole.
fn with_verdict<O: Write>(alloc: Global, outcome: Outcome, output: &mut O) -> Outcome
    ensures { TellsVerdict outcome (O.contents output.old) (O.contents output.new) result }
{
    match write_verdict(alloc, &outcome, output) {
        Ok(()) => outcome,
        Err(fault) => Outcome::Unwritten(fault),
    }
}

/// Writes what a command tells on the output behind what it wrote.
fn write_verdict<O: Write>(
    alloc: Global,
    outcome: &Outcome,
    output: &mut O,
) -> Result<(), ListFault>
    ensures { WritesText (output_of outcome.now) (O.contents output.old) (O.contents output.new) result }
{
    let text = outcome.output(alloc)?;
    write_whole(output, text.as_bytes())?;
    Ok(())
}

/// Writes on the error stream how a command ended: its remarks, or a fault, or that there was no memory for the text of a fault.
fn write_error<E: Write>(
    alloc: Global,
    outcome: &Outcome,
    errors: &mut E,
) -> Result<(), WriteFailed>
    ensures { TellsError outcome.now (E.contents errors.old) (E.contents errors.new) result }
{
    if let Some(remarks) = outcome.remarks() {
        return remarks.write(errors);
    }
    match outcome.fault_text(alloc) {
        Ok(text) => write_whole(errors, text.as_bytes()),
        Err(_) => write_whole(errors, b"cosem-flow: out of memory\n"),
    }
}
