//! The program `codec_bench`: handles the bytes of standard input many times over, to be timed.
//!
//! `codec_bench copy N` copies the bytes N times by a plain loop, one byte after the other,
//! `codec_bench read N` reads the value in front of them N times, and `codec_bench write N` reads it
//! once and writes it N times. What is printed is how many bytes the N passes handled together. Exit
//! status: 0 done, 2 the command line can't be used, 3 a fault.
#![tactic(auto)]

mod command;
mod fault;
mod input;
mod limits;
mod passes;

use command::{Command, Outcome};
use fault::Fault;
use input::read_input;
use passes::run;
use std::env;
use std::process::ExitCode;

const USAGE: &str = "usage: codec_bench copy|read|write N";

fn main(rt: HostRuntime) -> ExitCode {
    let outcome = match read_words(&rt) {
        Some(command) => handle(&rt, command),
        None => Outcome::Usage,
    };
    tell(&rt, outcome);
    ExitCode::from(outcome.status())
}

/// The command that the words of the command line are, if they are one.
fn read_words(rt: &HostRuntime) -> Option<Command> {
    let mut words = env::args(rt).ok()?;
    let _program = words.next();
    match (words.next(), words.next(), words.next()) {
        (Some(name), Some(count), None) => Command::read(name.as_str(), count.as_str()),
        _ => None,
    }
}

/// Runs the command over standard input, and prints how many bytes its passes handled.
fn handle(rt: &HostRuntime, command: Command) -> Outcome {
    match count_bytes(rt, command) {
        Ok(total) if println!(rt; "{total}").is_ok() => Outcome::Done,
        Ok(_) => Outcome::Fault(Fault::Output),
        Err(fault) => Outcome::Fault(fault),
    }
}

fn count_bytes(rt: &HostRuntime, command: Command) -> Result<u64, Fault> {
    let bytes = read_input(rt.alloc(), rt.reader())?;
    run(rt.alloc(), command, &bytes)
}

/// Tells on standard error what went wrong.
fn tell(rt: &HostRuntime, outcome: Outcome) {
    let _ = match outcome {
        Outcome::Done => Ok(()),
        Outcome::Usage => rt.eprintln(USAGE),
        Outcome::Fault(fault) => eprintln!(rt; "codec_bench: {fault}"),
    };
}
