//! What a meter does, and what an access configuration that is admitted promises.
//!
//! The definitions stand in `specs/`: values and times that may stand in a cell (`Value`, `Times`), plans and states
//! (`Plan`, `State`, `States`, `Sound`), the answer to a request (`Rights`, `Selection`, `Fixed`), steps, replies and
//! runs (`Steps`, `Replies`), edges, labels and admission over the types of [`flow`] (`Edges`, `Labels`, `Check`), the ways
//! by which clients reach cells (`Ways`), the laws of effects on which the promises rest (`EffectLaws`), the promises over two
//! runs (`Safety`), and what a client could notice of a step (`Notice`). The theorems are the functions of [`laws`].
#![tactic(auto)]

pub mod access;
pub mod classes;
pub mod flow;
pub mod laws;
pub mod limits;
pub mod refs;
