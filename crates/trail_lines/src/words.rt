//! The words that begin lines of a trail, and no step line. No client has such a name, for each has a hyphen.

pub(crate) const SET_CLOCK: &[u8] = b"set-clock";

pub(crate) const MOVE_CLOCK: &[u8] = b"move-clock";

pub(crate) const CAPTURE_IF_DUE: &[u8] = b"capture-if-due";

pub(crate) const RUN_IF_DUE: &[u8] = b"run-if-due";
