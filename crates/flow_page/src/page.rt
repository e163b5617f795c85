//! What a page shows.
use crate::changes::Changes;
use crate::matrix::MatrixRow;
use crate::objects::ObjectRow;
use crate::ways::WayTable;
use meter_theory::flow::{Cause, Edge};

/// What a page says at its head (own profile).
#[derive(Drop)]
pub struct Heading {
    /// The last part of the name of the configuration's file.
    pub name: String,
    /// The line of the verdict.
    pub verdict: String,
    /// Whether it accepts.
    pub accepted: bool,
    /// Whether it is on labels that were given, and not on the least labels.
    pub given_labels: bool,
}

/// What a page shows of a configuration (own profile).
#[derive(Drop)]
pub struct Page {
    /// What it says at its head.
    pub heading: Heading,
    /// How many objects the configuration has.
    pub object_count: usize,
    /// How many cells it has.
    pub cell_count: usize,
    /// How many edges it has.
    pub edge_count: usize,
    /// How many cells its clients reach, or could: the sum over them, for influence and for learning.
    pub total: Counts,
    /// Its clients.
    pub clients: Vec<ClientRow>,
    /// The matrix: a row for each cell, or for cells that are alike.
    pub rows: Vec<MatrixRow>,
    /// Ways that the policy doesn't allow.
    pub refused: WayTable,
    /// Ways by edges that it allows.
    pub reached: WayTable,
    /// What has changed against the configuration before, where one is given.
    pub changes: Option<Changes>,
    /// Its objects with the rights on them: a row for each object, or for objects that are alike.
    pub objects: Vec<ObjectRow>,
    /// How many edges there are of each cause.
    pub causes: Vec<CauseCount>,
    /// The edges, if there aren't too many to list them.
    pub edges: Vec<Edge>,
}

/// What a page shows of a client.
#[derive(Drop)]
pub struct ClientRow {
    /// Its name.
    pub name: String,
    /// Its service access point.
    pub sap: u8,
    /// Whether it needs a password.
    pub needs_password: bool,
    /// How many objects it sees.
    pub objects: usize,
    /// How many cells it may influence.
    pub influence: Counts,
    /// How many cells it may learn.
    pub learn: Counts,
}

/// How many cells a client reaches, or could.
#[derive(Clone, Copy, Drop)]
pub struct Counts {
    /// Cells that it reaches by a right.
    pub by_right: usize,
    /// Cells that it reaches by edges, and not by a right.
    pub by_edges: usize,
    /// Of both those that the policy doesn't allow.
    pub not_allowed: usize,
    /// Cells that the policy allows and to which there is no way.
    pub no_way: usize,
}

/// How many edges there are of a cause.
#[derive(Clone, Copy, Drop)]
pub struct CauseCount {
    /// The cause.
    pub cause: Cause,
    /// How many there are.
    pub edges: usize,
}
