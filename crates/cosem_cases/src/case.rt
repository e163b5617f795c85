//! One case, or a table of them, against what it must give.
use crate::kind::Kind;
use crate::run::Run;
use crate::story::is_told;
use crate::texts::{Texts, parted, spelt, stored};
use meter_server::demo::DEMO;
use std::net::{Net, TcpListener, TcpStream};
use std::sync::Wait;
use std::thread::Threads;
use std::time::Clock;

/// How many cases were as expected, and how many fell short.
#[derive(Clone, Copy)]
pub(crate) struct Tally {
    pub(crate) count: u64,
    pub(crate) failed: u64,
}

impl Tally {
    /// No case yet.
    pub(crate) fn new() -> Self {
        Tally {
            count: 0,
            failed: 0,
        }
    }

    /// Tries each case that is listed.
    pub(crate) fn count_all<H>(&mut self, rt: &H, host: &HostRuntime, list: &str)
    where
        H: AllocGlobal
            + Clock
            + Net<Stream = TcpStream, Listener = TcpListener>
            + Threads
            + Wait
            + Sync,
    {
        for line in list.lines() {
            if !line.is_empty() && !line.starts_with('#') && self.count(rt, host, line).is_none() {
                self.tell(host, false, line);
            }
        }
    }

    /// Tries the case, or the table of cases, of a line of the list, over the configuration that it names, or over the demo.
    fn count<H>(&mut self, rt: &H, host: &HostRuntime, line: &str) -> Option<()>
    where
        H: AllocGlobal
            + Clock
            + Net<Stream = TcpStream, Listener = TcpListener>
            + Threads
            + Wait
            + Sync,
    {
        let (word, words) = parted(line, " ");
        let kind = Kind::read(word)?;
        let default = if kind.is_alone() { words } else { "demo" };
        let (configuration, name) = words.split_once(" ").unwrap_or((default, words));
        let texts = Texts::of_case(host, kind, configuration)?;
        if kind.is_alone() {
            self.tell(host, is_well(rt, host, kind, &texts, words), line);
        } else {
            let rows = stored(host, word, "/", name)?;
            self.count_rows(rt, host, kind, &texts, rows.as_str());
        }
        Some(())
    }

    /// Tries each case of a table, over a configuration and its labels.
    fn count_rows<H>(&mut self, rt: &H, host: &HostRuntime, kind: Kind, texts: &Texts, rows: &str)
    where
        H: AllocGlobal
            + Clock
            + Net<Stream = TcpStream, Listener = TcpListener>
            + Threads
            + Wait
            + Sync,
    {
        for row in rows.split(kind.end()) {
            if kind.is_case(row) {
                self.tell(host, is_well(rt, host, kind, texts, row), row);
            }
        }
    }

    /// Counts a case, and tells one that fell short.
    fn tell(&mut self, host: &HostRuntime, is_well: bool, case: &str) {
        if is_well {
            self.count = self.count.saturating_add(1);
        } else {
            self.failed = self.failed.saturating_add(1);
            let _ = println!(host; "not as expected: {case}");
        }
    }
}

/// Whether a case is as expected, over a configuration and its labels.
fn is_well<H>(rt: &H, host: &HostRuntime, kind: Kind, texts: &Texts, row: &str) -> bool
where
    H: AllocGlobal
        + Clock
        + Net<Stream = TcpStream, Listener = TcpListener>
        + Threads
        + Wait
        + Sync,
{
    if matches!(kind, Kind::Demo) {
        return texts.config.as_str() == DEMO;
    }
    let Some(row) = spelt(rt.alloc(), row) else {
        return false;
    };
    if matches!(kind, Kind::Sessions) {
        return is_told(rt.alloc(), texts.config.as_str(), row.as_str()) == Some(true);
    }
    let mut run = Run::new(rt.alloc());
    run.fill(host, kind, texts, row.as_str()).is_some() && run.is_as_wanted(rt, host, kind)
}
