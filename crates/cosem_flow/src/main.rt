//! The program `cosem-flow`: a meter server over lines of text, frames and TCP, and a judge of configurations. What each
//! command does says
//! `meter_server::program::run_program`; `cosem-flow --help` lists them.
//!
//! Exit status: 0 done or accepted, 1 a configuration or labels refused, 2 the command line can't be used, 3 any other
//! fault, 141 where
//! whoever read the output has gone.
#![tactic(auto)]

use meter_server::output::Pipe;
use meter_server::program::run_program;
use std::alloc::{AllocError, Global};
use std::io::{ErrorKind, IsTerminal};
use std::process::ExitCode;
use std::{env, io};
use step_stores::host::HostStores;

/// Why the words of the command line can't be had.
#[derive(Clone, Copy)]
enum NoWords {
    /// One of them isn't UTF-8.
    NotText,
    /// Memory was refused.
    Memory,
}

impl NoWords {
    /// What is told of it on standard error.
    fn line(self) -> &'static str {
        match self {
            NoWords::NotText => "cosem-flow: a word of the command line isn't UTF-8",
            NoWords::Memory => "cosem-flow: out of memory",
        }
    }

    /// The exit status: 2 where the command line can't be used, 3 for any other fault.
    fn status(self) -> u8 {
        match self {
            NoWords::NotText => 2,
            NoWords::Memory => 3,
        }
    }
}

fn main(rt: HostRuntime) -> ExitCode {
    let words = match read_words(&rt, rt.alloc()) {
        Ok(words) => words,
        Err(fault) => {
            let _ = rt.eprintln(fault.line());
            return ExitCode::from(fault.status());
        }
    };
    let status = run_program(
        &rt,
        &rt,
        &HostStores { rt: &rt },
        &rt,
        &words,
        &mut rt.reader(),
        &mut Pipe::new(io::writer(&rt)),
        &mut rt.stderr(),
    );
    ExitCode::from(status)
}

/// The words of the command line, the program's name first. An audit is asked to tell how far it is where standard error is
/// a terminal.
fn read_words(rt: &HostRuntime, alloc: Global) -> Result<Vec<String>, NoWords> {
    let words = given_words(rt, alloc)?;
    if rt.stderr().is_terminal() {
        with_progress(alloc, words).map_err(|_| NoWords::Memory)
    } else {
        Ok(words)
    }
}

/// The words as they were given.
fn given_words(rt: &HostRuntime, alloc: Global) -> Result<Vec<String>, NoWords> {
    match env::args(rt) {
        Ok(words) => words.collect(alloc).map_err(|_| NoWords::Memory),
        Err(error) => match error.kind() {
            ErrorKind::InvalidData => Err(NoWords::NotText),
            _ => Err(NoWords::Memory),
        },
    }
}

/// The words, with `--progress` behind the command where that is `audit`.
fn with_progress(alloc: Global, mut words: Vec<String>) -> Result<Vec<String>, AllocError> {
    if let Some(command) = words.get(1) {
        if command.as_str() == "audit" {
            words.insert(2, String::from_str(alloc, "--progress")?)?;
        }
    }
    Ok(words)
}
