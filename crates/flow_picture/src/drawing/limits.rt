//! How much a picture shows. Each limit is own profile.

/// Up to so many boxes the groups that are given are drawn. Past it those of one class and attribute are.
pub(crate) const BOXES: usize = 48;

/// Up to so many arrows they are drawn.
pub(crate) const ARROWS: usize = 160;
