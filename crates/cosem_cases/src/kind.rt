//! Kinds of cases.

/// What a line of the list names.
#[derive(Clone, Copy)]
pub(crate) enum Kind {
    /// The text of the demo.
    Demo,
    /// A command line, with its input and what it must write.
    Command,
    /// Lines that are run.
    Lines,
    /// A table of edits of the configuration, and their verdicts.
    Edits,
    /// A table of edits of the configuration and of labels for it, and their verdicts.
    Labels,
    /// The same, with what explains each verdict.
    Explained,
    /// A table of lines that are not readable.
    Unreadable,
    /// A table of texts that are translated.
    Words,
    /// A table of connections.
    Frames,
    /// A table of stories of sessions.
    Sessions,
}

impl Kind {
    /// The kind that a word of the list names.
    pub(crate) fn read(word: &str) -> Option<Kind> {
        match word {
            "demo" => Some(Kind::Demo),
            "command" => Some(Kind::Command),
            "lines" => Some(Kind::Lines),
            "edits" => Some(Kind::Edits),
            "labels" => Some(Kind::Labels),
            "explained" => Some(Kind::Explained),
            "unreadable" => Some(Kind::Unreadable),
            "words" => Some(Kind::Words),
            "frames" => Some(Kind::Frames),
            "sessions" => Some(Kind::Sessions),
            _ => None,
        }
    }

    /// Whether a line of the list is a case, and names no table of them.
    pub(crate) fn is_alone(self) -> bool {
        matches!(self, Kind::Demo | Kind::Command | Kind::Lines)
    }

    /// What stands between two cases of a table.
    pub(crate) fn end(self) -> &'static str {
        match self {
            Kind::Explained | Kind::Sessions => "\n\n",
            _ => "\n",
        }
    }

    /// Whether what stands between two ends is a case. A story may begin with a comment.
    pub(crate) fn is_case(self, row: &str) -> bool {
        !row.is_empty() && (matches!(self, Kind::Sessions) || !row.starts_with('#'))
    }
}
