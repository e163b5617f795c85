//! A run of the program, against what it must tell.
use crate::copies::with_copies;
use crate::hex_text::bytes_of;
use crate::kind::Kind;
use crate::texts::{Texts, parted, stored, stored_or_empty};
use crate::wanted::Wanted;
use meter_server::program::run_program;
use std::alloc::Global;
use std::net::{Net, TcpListener, TcpStream};
use std::sync::Wait;
use std::thread::Threads;
use std::time::Clock;
use step_stores::host::HostStores;
use text_files::TextFiles;

/// The words of the command lines over a configuration and labels in memory, one a line.
const RUN: &str = "run\ndemo.toml";

const CHECK: &str = "check\ndemo.toml\ndemo.labels";

const SESSION: &str = "session\ndemo.toml";

/// The folder with the command lines.
const COMMANDS: &str = "commands/";

/// A run of the program: the words of its command line, the texts that it reads as files, its input, and what it must tell.
#[derive(Drop)]
pub(crate) struct Run {
    words: Vec<String>,
    texts: Texts,
    input: Vec<u8>,
    wanted: Wanted,
}

impl Run {
    /// A run without words, which must tell nothing.
    pub(crate) fn new(alloc: Global) -> Self {
        Run {
            words: Vec::new(alloc),
            texts: Texts::new(alloc),
            input: Vec::new(alloc),
            wanted: Wanted::new(alloc),
        }
    }

    /// Makes this the run of a case over a configuration and its labels.
    pub(crate) fn fill(
        &mut self,
        host: &HostRuntime,
        kind: Kind,
        texts: &Texts,
        row: &str,
    ) -> Option<()> {
        let alloc = host.alloc();
        self.texts.append(texts)?;
        match kind {
            Kind::Edits => self.judge(alloc, RUN, kind, row),
            Kind::Labels => self.judge(alloc, CHECK, kind, row),
            Kind::Explained => self.explain(alloc, row),
            Kind::Unreadable => self.run_unreadable(alloc, row),
            Kind::Words => self.translate(alloc, row),
            Kind::Frames => self.serve(alloc, row),
            Kind::Lines => self.answer(host, row),
            _ => self.command(host, row),
        }
    }

    /// With the edits of the row `EDIT => NEW => .. => VERDICT` this command comes to its verdict.
    fn judge(&mut self, alloc: Global, words: &str, kind: Kind, row: &str) -> Option<()> {
        let (edits, verdict) = row.rsplit_once(" => ")?;
        self.texts.edit_all(alloc, kind, edits)?;
        self.wanted.judged(verdict)?;
        push_words(alloc, &mut self.words, words)
    }

    /// The lines behind the row, each behind `| `, explain its verdict.
    fn explain(&mut self, alloc: Global, case: &str) -> Option<()> {
        let (row, lines) = parted(case, "\n| ");
        self.judge(alloc, CHECK, Kind::Explained, row)?;
        let lines = lines.replace(alloc, "\n| ", "\n").ok()?;
        self.wanted.explained(lines.as_str().trim_end())
    }

    /// The line alone is told as unreadable, and ends the run.
    fn run_unreadable(&mut self, alloc: Global, line: &str) -> Option<()> {
        self.input.extend_from_slice(line.as_bytes()).ok()?;
        self.wanted.unreadable("line 1: unreadable", "line 1")?;
        push_words(alloc, &mut self.words, RUN)
    }

    /// The row `encode TEXT => MADE` or `decode TEXT => MADE`: this is made of the text, or nothing where MADE is `fault` and what
    /// is told of the text.
    fn translate(&mut self, alloc: Global, row: &str) -> Option<()> {
        let (given, made) = parted(row, " => ");
        let (command, text) = parted(given, " ");
        self.input.extend_from_slice(text.as_bytes()).ok()?;
        self.wanted.made(made)?;
        push_words(alloc, &mut self.words, command)
    }

    /// The row `FRAMES => ANSWERS => END`: a connection over which these bytes come is answered by these, and ends so. END is
    /// `N frames`, or the fault in words.
    fn serve(&mut self, alloc: Global, row: &str) -> Option<()> {
        let (frames, rest) = parted(row, " => ");
        let (answers, end) = parted(rest, " => ");
        self.input = bytes_of(alloc, frames)?;
        self.wanted.output = bytes_of(alloc, answers)?;
        self.wanted.ended(end)?;
        push_words(alloc, &mut self.words, SESSION)
    }

    /// The lines of the case `CONFIGURATION NAME`, those of `lines/NAME.in`, give what `lines/NAME.out` has.
    fn answer(&mut self, host: &HostRuntime, case: &str) -> Option<()> {
        let (_, name) = parted(case, " ");
        let lines = with_copies(host.alloc(), stored(host, "lines/", name, ".in")?.as_str())?;
        self.input.extend_from_slice(lines.as_bytes()).ok()?;
        self.wanted
            .of_lines(stored(host, "lines/", name, ".out")?.as_str())?;
        push_words(host.alloc(), &mut self.words, RUN)
    }

    /// The command line of the case `NAME STATUS` ends with the status: its words are the lines of `commands/NAME.words`, its input
    /// is that of `commands/NAME.in`, and `NAME.out` and `NAME.err` have what it must write.
    fn command(&mut self, host: &HostRuntime, case: &str) -> Option<()> {
        let (name, status) = parted(case, " ");
        self.wanted.status = status.parse::<u8>().ok()?;
        push_stored(host, &mut self.wanted.output, name, ".out")?;
        push_stored(host, &mut self.wanted.errors, name, ".err")?;
        push_stored(host, &mut self.input, name, ".in")?;
        let words = stored_or_empty(host, COMMANDS, name, ".words");
        push_words(host.alloc(), &mut self.words, words.as_str())
    }

    /// Whether the program tells what it must, where it reads the files of a command line, and else the texts of the case.
    pub(crate) fn is_as_wanted<H>(&self, rt: &H, host: &HostRuntime, kind: Kind) -> bool
    where
        H: AllocGlobal
            + Clock
            + Net<Stream = TcpStream, Listener = TcpListener>
            + Threads
            + Wait
            + Sync,
    {
        if matches!(kind, Kind::Command) {
            self.is_told(rt, host, &HostStores { rt: host })
        } else {
            self.is_told(rt, &self.texts, &HostStores { rt: host })
        }
    }

    /// Whether the program tells what it must where it reads these files.
    fn is_told<H, F>(&self, rt: &H, files: &F, stores: &HostStores<'_>) -> bool
    where
        H: AllocGlobal
            + Clock
            + Net<Stream = TcpStream, Listener = TcpListener>
            + Threads
            + Wait
            + Sync,
        F: TextFiles + Sync,
    {
        let mut input = self.input.as_slice();
        let mut output = Vec::new(rt.alloc());
        let mut errors = Vec::new(rt.alloc());
        let status = run_program(
            rt,
            files,
            stores,
            stores.rt,
            &self.words,
            &mut input,
            &mut output,
            &mut errors,
        );
        self.wanted.is_told(status, &output, &errors)
    }
}

/// Appends the words of a command line, the program's name and then one a line.
fn push_words(alloc: Global, words: &mut Vec<String>, text: &str) -> Option<()> {
    words
        .push(String::from_str(alloc, "cosem-flow").ok()?)
        .ok()?;
    for line in text.lines() {
        words.push(String::from_str(alloc, line).ok()?).ok()?;
    }
    Some(())
}

/// Appends what a file of a command line has, which is nothing where it isn't there.
fn push_stored(host: &HostRuntime, bytes: &mut Vec<u8>, name: &str, end: &str) -> Option<()> {
    let text = stored_or_empty(host, COMMANDS, name, end);
    bytes.extend_from_slice(text.as_bytes()).ok()
}
