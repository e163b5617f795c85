//! The program `cosem_cases`: stored cases of whole texts, each against what it must give.
//!
//! The file `cases` lists them, in the order in which they are tried. Empty lines and lines that begin with `#` are passed
//! over; any other line is one of these:
//!
//! - `demo CONFIGURATION`: the text of `CONFIGURATION.toml` is that of the demo, by which the command `demo` answers.
//! - `lines CONFIGURATION NAME`: the lines of `lines/NAME.in` over the configuration `CONFIGURATION.toml`
//!   give what `lines/NAME.out` has: what `run` writes, and then how it ended, `done` or the line that can't be read, as it
//!   is told;
//!   or the configuration's verdict.
//! - `edits CONFIGURATION NAME`: each row `OLD => NEW => .. => VERDICT` of `edits/NAME` is a case. With each NEW in place
//!   of its OLD,
//!   which it has once, `run` with no line comes to this verdict on the configuration, or `no fault`.
//! - `labels CONFIGURATION NAME`: each row `EDIT => NEW => .. => VERDICT` of `labels/NAME` is a case, where EDIT is `config OLD` or
//!   `labels OLD`. With each NEW in place of its OLD, which stands there once, `check` comes to this verdict on the
//!   configuration and
//!   the labels `CONFIGURATION.labels`.
//! - `explained CONFIGURATION NAME`: each case of `explained/NAME`, which empty lines part, is a row as those of `labels`,
//!   and behind
//!   it the lines that explain the verdict on standard error, each behind `| `.
//! - `unreadable CONFIGURATION NAME`: each row of `unreadable/NAME` is a case: `run` tells the line, alone, by
//!   `line 1: unreadable`, and ends.
//! - `words NAME`: each row `encode TEXT => MADE` or `decode TEXT => MADE` of `words/NAME` is a case: this is made of the text, or
//!   nothing, and MADE is `fault` and what is told of it.
//! - `frames CONFIGURATION NAME`: each row `FRAMES => ANSWERS => END` of `frames/NAME` is a case: `session` answers a
//!   connection over
//!   which these bytes come, in hex, by these, and it ends so; END is `N frames`, as many as the answers are, or the fault
//!   in words.
//! - `sessions CONFIGURATION NAME`: each story of `sessions/NAME`, which empty lines part, is a case: its lines `SESSION
//!   WPORT APDU =>
//!   ANSWER` are answered so, in their order, by the sessions `first` and `second` on one meter. In both tables spaces may stand
//!   between hex digits.
//! - `command NAME STATUS`: the program with the words of `commands/NAME.words`, one a line, and the input `NAME.in` ends
//!   with this status and writes `NAME.out` on standard output and `NAME.err` on standard error; a file that isn't there is
//!   empty.
//!
//! Each case but those of `demo` and `sessions` is a run of the program `cosem-flow` with the words of a command: its exit
//! status is
//! compared, what it writes on standard output, and what it tells on standard error. Why a line can't be read is compared in
//! `command` alone, what explains a verdict in `explained` and `command`. Everywhere but in `command` the program reads the
//! configuration as the file `demo.toml` and the labels as `demo.labels`; they are the demo's where a table names none.
//!
//! In lines and in the rows of tables `<<N*TEXT>>` stands for N copies of the text, with numbers in place of `&$` (`copies`); in
//! rows `\n` stands for the end of a line, and `\r` for the byte that some put before it.
//!
//! Each case that falls short is told by its name. Exit status: 0 where all cases are as expected, else 1.
#![tactic(auto)]

mod case;
mod copies;
mod hex_text;
mod kind;
mod run;
mod story;
mod texts;
mod wanted;

use case::Tally;
use std::fs;
use std::process::ExitCode;

/// The file that lists the cases, in the current folder.
const CASES: &str = "cases";

fn main(rt: HostRuntime) -> ExitCode {
    let Ok(list) = fs::read_to_string(&rt, CASES) else {
        let _ = rt.eprintln("cosem_cases: the file cases can't be read");
        return ExitCode::FAILURE;
    };
    let mut tally = Tally::new();
    tally.count_all(&rt, &rt, list.as_str());
    let is_told = println!(rt; "{} cases as expected", tally.count).is_ok();
    if tally.failed == 0 && is_told {
        ExitCode::SUCCESS
    } else {
        ExitCode::FAILURE
    }
}
