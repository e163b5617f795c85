//! A picture of how values flow between cells, as SVG: boxes of cells, arrows between them, and where they stand (own profile).
//!
//! - [`picture::Picture`] is what it shows, [`layout::Layout`] where it stands, and [`svg::picture_text`] its text.
//! - [`drawing`] makes it of what is known of a configuration.
//! - The text is put together of pieces: [`svg`] puts the legend, the choice of a client and the cells without edges, and `arrows`,
//!   `boxes` and `box_text` put the drawing, of which `placed` puts the places.
//!
//! The definitions stand in `specs/`: what a picture says of its boxes and arrows and as a whole (`Svg`). Where boxes and arrows
//! stand is free, so nothing is defined of that.
#![tactic(auto)]

mod arrows;
mod box_text;
mod boxes;
mod columns;
pub mod drawing;
pub mod layout;
mod lines;
pub mod picture;
mod placed;
mod places;
mod sizes;
pub mod svg;
