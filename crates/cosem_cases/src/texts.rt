//! Texts of the cases: stored in files, and a configuration and its labels as files in memory.
use crate::copies::with_copies;
use crate::kind::Kind;
use std::alloc::Global;
use std::fs;
use text_files::{FileFault, TextFiles};

/// The text of the file in the current folder whose path these three parts make.
pub(crate) fn stored(host: &HostRuntime, front: &str, name: &str, end: &str) -> Option<String> {
    let path = format!(in host.alloc(); "{front}{name}{end}").ok()?;
    fs::read_to_string(host, path.as_str()).ok()
}

/// The text of the file in the current folder whose path these three parts make; of one that isn't there it is empty.
pub(crate) fn stored_or_empty(host: &HostRuntime, front: &str, name: &str, end: &str) -> String {
    match stored(host, front, name, end) {
        Some(text) => text,
        None => String::new(host.alloc()),
    }
}

/// What stands in a text before the first such mark, and what stands behind it; the text and nothing where it has none.
pub(crate) fn parted<'a>(text: &'a str, mark: &str) -> (&'a str, &'a str) {
    text.split_once(mark).unwrap_or((text, ""))
}

/// The text of a row, with its ends of lines and its copies spelt out.
pub(crate) fn spelt(alloc: Global, row: &str) -> Option<String> {
    let ended = row.replace(alloc, "\\n", "\n").ok()?;
    let ended = ended.replace(alloc, "\\r", "\r").ok()?;
    with_copies(alloc, ended.as_str())
}

/// A configuration and labels for it, which the program reads as the files `demo.toml` and `demo.labels`.
#[derive(Drop)]
pub(crate) struct Texts {
    pub(crate) config: String,
    labels: String,
}

impl Texts {
    /// Empty texts.
    pub(crate) fn new(alloc: Global) -> Self {
        Texts {
            config: String::new(alloc),
            labels: String::new(alloc),
        }
    }

    /// The texts of a configuration of the cases, and of its labels, which are empty where it has none. A command line reads none.
    pub(crate) fn of_case(host: &HostRuntime, kind: Kind, configuration: &str) -> Option<Self> {
        if matches!(kind, Kind::Command) {
            return Some(Texts::new(host.alloc()));
        }
        let config = stored(host, "", configuration, ".toml")?;
        let labels = stored_or_empty(host, "", configuration, ".labels");
        Some(Texts { config, labels })
    }

    /// Appends other texts to these.
    pub(crate) fn append(&mut self, texts: &Texts) -> Option<()> {
        self.config.push_str(texts.config.as_str()).ok()?;
        self.labels.push_str(texts.labels.as_str()).ok()
    }

    /// Makes the edits `EDIT => NEW => ..`.
    pub(crate) fn edit_all(&mut self, alloc: Global, kind: Kind, edits: &str) -> Option<()> {
        let mut begun = None;
        for part in edits.split(" => ") {
            begun = match begun {
                None => Some(part),
                Some(edit) => {
                    self.edit(alloc, kind, edit, part)?;
                    None
                }
            };
        }
        match begun {
            None => Some(()),
            Some(_) => None,
        }
    }

    /// Puts what is new in place of what is old, which stands once in the text that the edit names: it is `config OLD` or `labels OLD`,
    /// or OLD alone where the configuration is all that is edited.
    fn edit(&mut self, alloc: Global, kind: Kind, edit: &str, new: &str) -> Option<()> {
        let (place, old) = match kind {
            Kind::Edits => ("config", edit),
            _ => parted(edit, " "),
        };
        match place {
            "config" => self.config = with_edit(alloc, self.config.as_str(), old, new)?,
            "labels" => self.labels = with_edit(alloc, self.labels.as_str(), old, new)?,
            _ => return None,
        }
        Some(())
    }
}

impl TextFiles for Texts {
    fn read(&self, path: &str) -> Result<String, FileFault> {
        let text = match path {
            "demo.toml" => &self.config,
            "demo.labels" => &self.labels,
            _ => return Err(FileFault::Missing),
        };
        text.clone().map_err(|_| FileFault::Memory)
    }
}

/// The text with what is new in place of what is old, which it has once.
fn with_edit(alloc: Global, text: &str, old: &str, new: &str) -> Option<String> {
    let (before, after) = text.split_once(old)?;
    if after.contains(old) {
        return None;
    }
    format!(in alloc; "{before}{new}{after}").ok()
}
