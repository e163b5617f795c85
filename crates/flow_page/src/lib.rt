//! A page on who may change and who may learn what, and its text in HTML (own profile).
//!
//! - [`page::Page`] is what it shows, [`page_text::page_text`] its text, and [`view`] makes it of what is known of a configuration.
//! - The rooms `.._text` put a part each together from pieces, by the templates of [`lists`], and [`style`] has the style and the
//!   script.
//!
//! What a page says of its value stands in `specs/`, in the order of the page: all of it (`Page`), the matrix (`Matrix`), edges and
//! ways (`Ways`), and clients, objects and changes (`Tables`). Markup that says nothing is named there by nothing. What the value should be
//! is told in [`view`].
#![tactic(auto)]

pub mod changes;
mod changes_text;
mod clients_text;
mod edges_text;
mod lines_text;
mod lists;
mod marks_text;
pub mod matrix;
mod matrix_text;
pub mod objects;
mod objects_text;
pub mod page;
pub mod page_text;
pub mod style;
mod verdict_text;
pub mod view;
pub mod ways;
mod ways_text;
