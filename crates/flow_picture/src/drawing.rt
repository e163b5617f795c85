//! What a picture of the flow shows of a plan: boxes of its cells, and arrows between them (own profile).
//!
//! - [`picture::picture_of`] makes it.
//!
//! What it should be stands in `specs/`: what is told of a box (`Boxes`), the arrows between boxes (`Arrows`), which cells stand in
//! boxes (`Drawn`), and the whole (`Picture`). The theorems are the functions of [`laws`].

mod arrows;
mod boxes;
mod classes;
mod drawn;
pub mod laws;
mod limits;
pub mod picture;
