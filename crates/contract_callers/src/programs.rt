//! Callers of the live meter and its readers, and of the program.
ghost use Rattle.std.specs.Prelude.{◌≡◌, ◌⊎◌, IfOk, map, string_bytes};
ghost use mathlib.Core.List.{IsPrefix};
ghost use Rattle.meter_live.specs.Marks.{LieOnOne};
ghost use Rattle.meter_server.specs.Answering.{Runs};
ghost use Rattle.meter_server.specs.Outcomes as outcomes;
ghost use Rattle.meter_server.specs.Outcomes.{output_of, status_of};
ghost use Rattle.meter_server.specs.Program.{AreMistaken};

use cosem_data::memory::Memory;
use line_server::fault::LineFault;
use line_sources::file::Opens;
use meter_live::desk::BoardReader;
use meter_live::live::Live;
use meter_live::names::Naming;
use meter_live::reader::Reader;
use meter_server::outcome::{Outcome, outcome_of};
use meter_server::output::Output;
use meter_server::program::run_program;
use std::alloc::Global;
use std::io::{Read, Write};
use std::net::{Net, TcpListener, TcpStream};
use std::sync::Wait;
use std::thread::Threads;
use std::time::Clock;
use step_keeping::keeper::{Keeps, Unkept};
use step_keeping::recalling::Recalls;
use step_stores::stores::Stores;
use text_files::TextFiles;

/// The exit status is the definition's.
pub fn status_behind(outcome: &Outcome) -> u8
    ensures { result ≡ status_of outcome.now }
{
    outcome.status()
}

/// So is what standard output tells, where memory isn't refused.
pub fn told_behind(alloc: Global, outcome: &Outcome) -> Result<String, Memory>
    ensures { IfOk result (λ text. string_bytes text ≡ output_of outcome.now) }
{
    outcome.output(alloc)
}

/// Of two readers of a board, one has seen all that the other has.
pub fn one_begins_the_other<N: Naming>(one: &BoardReader<N>, other: &BoardReader<N>)
    ensures { IsPrefix one.now other.now ⊎ IsPrefix other.now one.now }
{
    one.beside(other);
}

/// What a reader has seen, and what is published, lie on one list.
pub fn lie_on_one(live: &Live<Unkept>, one: &Reader, other: &Reader)
    requires { (one.now.book ≡ live.now.book) × (other.now.book ≡ live.now.book) }
    ensures { LieOnOne one.now.seen live.now.published }
{
    live.beside(one, other);
}

/// A fault of the lines is how the command ended.
pub fn ended_so(answer: Result<u64, LineFault>) -> Outcome
    ensures { result ≡ outcomes.outcome_of answer }
{
    outcome_of(answer)
}

/// What words ask for is done, and then told, whatever reads the files. Words that are no command are told, with the status of a
/// wrong command line or of refused memory.
pub fn run_asked<H, F, S, K, P, L, D, I, O, E>(
    rt: &H,
    files: &F,
    stores: &S,
    opener: &L,
    words: &[String],
    input: &mut I,
    output: &mut O,
    errors: &mut E,
) -> u8
where
    H: AllocGlobal
        + Clock
        + Net<Stream = TcpStream, Listener = TcpListener>
        + Threads
        + Wait
        + Sync,
    F: TextFiles + Sync,
    S: Stores<K, P>,
    K: Keeps + Drop + Send,
    P: Recalls + Drop,
    L: Opens<D> + Sync,
    D: Read + Drop + Send,
    I: Read + Send,
    O: Output,
    E: Write + Send,
    ensures runs { Runs (F.may_read files.now) (map string_bytes words.now)
        (record { unread = I.remaining input.old; written = O.contents output.old })
        (record { unread = I.remaining input.new; written = O.contents output.new })
        (E.contents errors.old) (E.contents errors.new) result }
    ensures mistaken { AreMistaken (map string_bytes words.now) → (result ≡ 2) ⊎ (result ≡ 3) }
{
    run_program(rt, files, stores, opener, words, input, output, errors)
}
