//! The names of the commands.
ghost use Rattle.std.specs.Prelude.{◌≡◌};
ghost use Rattle.command_words.specs.CommandLine as spec;

/// Which command of the program (own profile).
#[derive(Clone, Copy, Drop)]
pub(crate) enum CommandName {
    Demo,
    Run,
    Edges,
    Label,
    Check,
    Why,
    Compare,
    Report,
    Quiet,
    Audit,
    Session,
    Serve,
    Trail,
    Encode,
    Decode,
}

/// All commands, in the order of the help.
pub(crate) const NAMES: [CommandName; 15] = [
    CommandName::Demo,
    CommandName::Run,
    CommandName::Edges,
    CommandName::Label,
    CommandName::Check,
    CommandName::Why,
    CommandName::Compare,
    CommandName::Report,
    CommandName::Quiet,
    CommandName::Audit,
    CommandName::Session,
    CommandName::Serve,
    CommandName::Trail,
    CommandName::Encode,
    CommandName::Decode,
];

impl CommandName {
    /// The command that this word names.
    pub(crate) fn named(word: &str) -> Option<CommandName>
        ensures { result ≡ spec.named word.now }
    {
        for name in NAMES {
            if word == name.word() {
                return Some(name);
            }
        }
        None
    }

    /// Its name among the words.
    pub(crate) fn word(self) -> &'static str
        ensures { result.now ≡ spec.word_of self }
    {
        match self {
            CommandName::Demo => "demo",
            CommandName::Run => "run",
            CommandName::Edges => "edges",
            CommandName::Label => "label",
            CommandName::Check => "check",
            CommandName::Why => "why",
            CommandName::Compare => "compare",
            CommandName::Report => "report",
            CommandName::Quiet => "quiet",
            CommandName::Audit => "audit",
            CommandName::Session => "session",
            CommandName::Serve => "serve",
            CommandName::Trail => "trail",
            CommandName::Encode => "encode",
            CommandName::Decode => "decode",
        }
    }
}
