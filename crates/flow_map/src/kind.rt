//! The kinds of facts, and their words.
ghost use Rattle.std.specs.Prelude.{◌≡◌};

/// A kind of facts of a configuration (own profile).
#[derive(Clone, Copy, Debug, PartialEq, Eq, Drop)]
pub enum Kind {
    /// A client may influence or learn a cell, by the least labels.
    May,
    /// The policy allows a client to influence or learn a cell that both configurations have.
    Allowed,
    /// What a client has in its view, and what it may get, set and call.
    Right,
    /// The service access point of a client, and that it needs no password.
    Client,
    /// A cell.
    Cell,
    /// An edge.
    Edge,
}

/// The kinds, in the order in which they are told.
pub const KINDS: [Kind; 6] = [
    Kind::May,
    Kind::Allowed,
    Kind::Right,
    Kind::Client,
    Kind::Cell,
    Kind::Edge,
];

impl Kind {
    ghost use Rattle.flow_map.specs.Kinds.{kind_word};

    /// Its word (own profile).
    pub fn word(self) -> &'static str
        ensures { result.now ≡ kind_word self }
    {
        match self {
            Kind::May => "may",
            Kind::Allowed => "allowed",
            Kind::Right => "right",
            Kind::Client => "client",
            Kind::Cell => "cell",
            Kind::Edge => "edge",
        }
    }
}

/// Whether a fact is gained or lost (own profile).
#[derive(Clone, Copy, Debug, PartialEq, Eq, Drop)]
pub enum Change {
    /// The new configuration has it, and the old one lacks it.
    Gained,
    /// The old configuration has it, and the new one lacks it.
    Lost,
}

impl Change {
    ghost use Rattle.flow_map.specs.Kinds.{change_sign};

    /// Its sign (own profile).
    pub fn sign(self) -> &'static str
        ensures { result.now ≡ change_sign self }
    {
        match self {
            Change::Gained => "+",
            Change::Lost => "-",
        }
    }
}
