//! Texts from outside as they are shown, so that no control character and no markup gets anywhere by them (own profile).
//!
//! - [`printable`] shows them on a terminal.
//! - [`html`] shows them on a page, and [`pieces`] puts a page together.
//!
//! The definitions stand in `specs/`: texts without control characters (`Printable`), the same without markup (`Html`), and what pieces
//! are printed as and what they say (`Pieces`). That texts are so is a theorem of [`laws`].
#![tactic(auto)]

pub mod html;
pub mod laws;
pub mod pieces;
pub mod printable;
