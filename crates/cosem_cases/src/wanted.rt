//! What a run of the program must tell.
use std::alloc::Global;

/// What a run of the program must tell: its exit status, and what stands on standard output and standard error.
#[derive(Drop)]
pub(crate) struct Wanted {
    pub(crate) status: u8,
    pub(crate) output: Vec<u8>,
    pub(crate) errors: Vec<u8>,
    /// Whether anything may stand behind these errors.
    goes_on: bool,
}

impl Wanted {
    /// That it did what it was asked to do, and wrote nothing.
    pub(crate) fn new(alloc: Global) -> Self {
        Wanted {
            status: 0,
            output: Vec::new(alloc),
            errors: Vec::new(alloc),
            goes_on: false,
        }
    }

    /// That it came to this verdict, or to `no fault`, whatever explains it where it isn't accepted.
    pub(crate) fn judged(&mut self, verdict: &str) -> Option<()> {
        match verdict {
            "no fault" => Some(()),
            "accepted" => push(&mut self.output, verdict, "\n"),
            _ => {
                self.status = 1;
                self.goes_on = true;
                push(&mut self.output, verdict, "\n")
            }
        }
    }

    /// That this explains its verdict, where it isn't accepted.
    pub(crate) fn explained(&mut self, explanation: &str) -> Option<()> {
        if !self.goes_on {
            return Some(());
        }
        self.goes_on = false;
        push(&mut self.errors, explanation, "\n")
    }

    /// That a fault stopped it.
    fn broken(&mut self, fault: &str) -> Option<()> {
        self.status = 3;
        push(&mut self.errors, "cosem-flow: ", fault)?;
        push(&mut self.errors, "\n", "")
    }

    /// That it wrote these lines, and that a line that can't be read stopped it: the last one, which tells of it. Why stands behind.
    pub(crate) fn unreadable(&mut self, lines: &str, place: &str) -> Option<()> {
        self.status = 3;
        self.goes_on = true;
        push(&mut self.output, lines, "\n")?;
        push(&mut self.errors, "cosem-flow: ", place)?;
        push(&mut self.errors, ": ", "")
    }

    /// That it made this of a text; or nothing where this is `fault` and what is told of the text.
    pub(crate) fn made(&mut self, made: &str) -> Option<()> {
        match made.strip_prefix("fault ") {
            Some(fault) => self.broken(fault),
            None => push(&mut self.output, made, ""),
        }
    }

    /// That its connection ended so: behind as many frames as it wrote, `N frames`, or by this fault.
    pub(crate) fn ended(&mut self, end: &str) -> Option<()> {
        match end.strip_suffix(" frames") {
            Some(count) => (count.parse::<usize>().ok()? == frames_of(&self.output)).then_some(()),
            None => self.broken(end),
        }
    }

    /// What a run of lines must tell that gives this text: what it writes, and then how it ends, `done` or the line that can't be
    /// read; or the verdict alone.
    pub(crate) fn of_lines(&mut self, text: &str) -> Option<()> {
        if let Some(written) = text.strip_suffix("done\n") {
            return push(&mut self.output, written, "");
        }
        let text = text.strip_suffix("\n")?;
        match text.rsplit_once("\n") {
            Some((lines, end)) => self.unreadable(lines, end.strip_suffix(": unreadable")?),
            None => self.judged(text),
        }
    }

    /// Whether a run told this.
    pub(crate) fn is_told(&self, status: u8, output: &[u8], errors: &[u8]) -> bool {
        self.status == status
            && self.output.as_slice() == output
            && errors.starts_with(&self.errors)
            && (self.goes_on || self.errors.len() == errors.len())
    }
}

/// Appends two texts.
fn push(bytes: &mut Vec<u8>, text: &str, behind: &str) -> Option<()> {
    bytes.extend_from_slice(text.as_bytes()).ok()?;
    bytes.extend_from_slice(behind.as_bytes()).ok()
}

/// How many frames these bytes begin with.
fn frames_of(bytes: &[u8]) -> usize {
    let mut rest = bytes;
    for count in 0..bytes.len() {
        match behind_frame(rest) {
            Some(behind) => rest = behind,
            None => return count,
        }
    }
    bytes.len()
}

/// The bytes behind the frame that these begin with: eight bytes, of which the last two have the length of what follows them.
fn behind_frame(bytes: &[u8]) -> Option<&[u8]> {
    let (head, rest) = bytes.split_at_checked(8)?;
    let length = u16::from_be_bytes([head[6], head[7]]);
    let (_, behind) = rest.split_at_checked(usize::from(length))?;
    Some(behind)
}
