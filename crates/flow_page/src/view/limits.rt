//! How much a page shows. Each limit is own profile.

/// Up to so many cells, and objects, each has a row of its own. Past it those that are alike share one.
pub(crate) const ROWS: usize = 100;

/// The most ways that are told.
pub(crate) const WAYS: usize = 2000;

/// The most edges of a way whose edges are told.
pub(crate) const LONG: usize = 24;

/// The most lines of a way that a mark tells.
pub(crate) const TIP: usize = 6;

/// The most changes of a kind that are told.
pub(crate) const CHANGES: usize = 500;

/// The most edges that are listed.
pub(crate) const EDGES: usize = 500;
