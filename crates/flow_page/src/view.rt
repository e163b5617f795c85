//! What a page shows of a plan: the page's value, made of the ways of the plan's clients and its policy (own profile).
//!
//! - [`page::page_of`] makes it.
//!
//! What it should be stands in `specs/`: what is told of a cell, a client and a reach (`Marks`), which cells share a row (`Keys`,
//! `Rows`), the clients and how many cells each reaches (`Clients`), the objects with the rights on them and the edges (`Objects`),
//! the lines of a way (`Lines`), which ways are told and in which tables (`WayTables`), the rows with their marks (`Marked`), what has
//! changed (`Changes`), and the whole (`Shown`). The theorems are the functions of [`laws`].

mod changes;
mod clients;
mod edges;
mod facts;
mod held;
mod keys;
pub mod laws;
mod limits;
mod lines;
mod marks;
mod matrix;
mod objects;
pub mod page;
mod parts;
mod picks;
mod rows;
mod table;
mod tables;
