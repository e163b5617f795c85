//! The forms in which it is told what clients may influence and learn (own profile).
//!
//! - [`html_form::html_text`] gives a report as a page for a browser, [`csv_form::csv_text`] as CSV, a record for each cell, client and
//!   reach, and [`json_form::json_text`] as JSON, one object with the verdict, the rights and the cells.
//! - [`edges::write_edges`] writes the edges, each in a line, and [`edges::write_dot`] as a graph that Graphviz reads.
//! - [`labels::write_least_labels`] writes the least labels, in the form in which labels are read.
//! - [`why::write_why`] writes by which ways a client may influence and learn a cell.
//!
//! What a form is stands in `specs/`: the records of CSV (`Csv`), the page (`Html`), the objects and rights that are shown (`Rights`),
//! the values of JSON (`Json`), and lists (`Listing`).
#![tactic(auto)]

pub mod csv_form;
pub mod edges;
pub mod html_form;
mod json_cells;
pub mod json_form;
mod json_rights;
mod json_values;
pub mod labels;
pub mod why;
