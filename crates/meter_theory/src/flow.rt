//! From which cell to which a value may flow, who may influence and learn a cell, what rights allow, and why labels are refused.
ghost use Rattle.std.specs.Prelude.{◌≡◌};

use crate::refs::Interface;
use cosem_data::cell::CellRef;
use cosem_data::clients::ClientSet;

/// Why a value may flow from a cell to another (own profile).
#[derive(Clone, Copy, Debug, PartialEq, Eq, Drop)]
pub enum Cause {
    /// A register monitor keeps what it has seen of its monitored value.
    Monitored,
    /// A register monitor runs the scripts that change the target: its monitored value, its thresholds and what it has seen
    /// decide which.
    Monitor,
    /// A profile captures the source into its buffer.
    Captured,
    /// The source holds one alternative of a menu: the cells that a profile captures, of which its buffer and its entries in use
    /// are; or the script that a schedule runs, which changes the target.
    Menu,
    /// A profile's capture period decides when its buffer and its entries in use change.
    Period,
    /// A schedule's execution time decides when the script runs that changes the target.
    Schedule,
    /// The clock decides when a profile captures, or a schedule's script runs, which changes the target.
    Clock,
}

/// From a cell to one that its value may reach or decide (own profile).
#[derive(Clone, Copy, Debug, PartialEq, Eq, Drop)]
pub struct Edge {
    /// The cell whose value may flow.
    pub source: CellRef,
    /// The cell to which it may flow.
    pub target: CellRef,
    /// Why it may.
    pub cause: Cause,
}

/// Who may influence what a cell holds, and who may learn it: clients by their places in the plan (own profile).
#[derive(Clone, Copy, Debug, PartialEq, Eq, Drop)]
pub struct Label {
    /// The clients that may influence it.
    pub influence: ClientSet,
    /// The clients that may learn it.
    pub learn: ClientSet,
}

/// Why labels are refused: the first cell, right or edge of a plan that fails the first clause of admission which any fails.
/// The clauses stand in their order (own profile). Clients are told by their places in the plan.
#[derive(Clone, Copy, Debug, PartialEq, Eq, Drop)]
pub enum Refusal {
    /// The cell has no label.
    NotLabelled(CellRef),
    /// The cell's label allows a client that the policy doesn't.
    PastPolicy(CellRef),
    /// The client has a right that changes the cell, and the label doesn't let it influence the cell.
    Changer(u8, CellRef),
    /// The client may read the cell, and the label doesn't let it learn the cell.
    Reader(u8, CellRef),
    /// Who may influence the source of the edge may not influence its target.
    InfluenceEscapes(Edge),
    /// Who may learn the target of the edge may not learn its source.
    LearnEscapes(Edge),
}

/// In which way a cell is a client's to reach (own profile).
#[derive(Clone, Copy, Debug, PartialEq, Eq, Drop)]
pub enum Reach {
    /// The client may influence what the cell holds.
    Influence,
    /// The client may learn what the cell holds.
    Learn,
}

/// What a right is asked for (IEC 62056-6-2, access rights).
#[derive(Clone, Copy, Debug, PartialEq, Eq, Drop)]
pub enum Access {
    /// A GET of an attribute.
    Get,
    /// A SET of an attribute.
    Set,
    /// An ACTION of a method.
    Act,
}

impl Access {
    ghost use Rattle.meter_theory.specs.Rights.{highest_for};

    /// The highest attribute or method of a class (IEC 62056-6-2).
    pub fn highest(self, interface: &Interface) -> u8
        ensures { result ≡ highest_for self interface.now }
    {
        match self {
            Access::Get | Access::Set => interface.attributes,
            Access::Act => interface.methods,
        }
    }
}
