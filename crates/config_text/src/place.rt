//! Where in the text of a configuration something stands.

ghost use Rattle.std.specs.Prelude.{◌≡◌, ◌++◌};
ghost use Rattle.config_text.specs.Lists.{element_place};

use std::alloc::Global;
use std::fmt;
use std::marker::Model;

/// The steps to a place, the last first.
#[derive(Drop)]
enum Steps<'a> {
    /// A key of the text's own table; empty for that table.
    Top(&'a str),
    /// Steps, and then a key.
    Key(&'a Steps<'a>, &'a str),
    /// Steps to an array, and then the index of an element.
    Element(&'a Steps<'a>, usize),
}

impl fmt::Display for Steps<'_> {
    ghost use Rattle.std.specs.Prelude.{Some};
    ghost use Rattle.config_text.specs.Places.{steps_text};

    ghost output = { λ steps. Some (steps_text steps) };

    fn fmt<W: fmt::Write>(&self, f: &mut fmt::Formatter<W>) -> fmt::Result {
        match self {
            Steps::Top(key) => f.write_str(key),
            Steps::Key(above, key) => {
                (**above).fmt(f)?;
                f.write_str(key)
            }
            Steps::Element(above, i) => {
                (**above).fmt(f)?;
                write!(f, "[{i}]")
            }
        }
    }
}

/// A place in the text of a configuration: the path to it, with indexes from 0, as `object[6].name`. It borrows the places
/// above it, and becomes a text where it is printed.
#[derive(Drop)]
pub struct Place<'a> {
    alloc: Global,
    steps: Steps<'a>,
}

impl<'a> Model for Place<'a> {
    ghost use Rattle.config_text.specs.Parts.{Text};
    ghost use Rattle.config_text.specs.Places.{steps_text};

    ghost Value = { Text };

    ghost view = { λ place. steps_text place.steps };
}

impl<'a> Place<'a> {
    /// The place at a key of the text's own table, or that table, where the key is empty.
    pub fn top(alloc: Global, key: &'a str) -> Self
        ensures { result ≡ key.now }
    {
        Place {
            alloc,
            steps: Steps::Top(key),
        }
    }

    /// The allocator by which the place becomes a text.
    pub fn alloc(&self) -> Global {
        self.alloc
    }

    /// The place at a key, which goes on from the path to this place.
    pub fn below(&'a self, key: &'a str) -> Self
        ensures { result ≡ self.now ++ key.now }
    {
        Place {
            alloc: self.alloc,
            steps: Steps::Key(&self.steps, key),
        }
    }

    /// The place of an element of the array at this place.
    pub fn element(&'a self, i: usize) -> Self
        ensures { result ≡ element_place self.now i }
    {
        Place {
            alloc: self.alloc,
            steps: Steps::Element(&self.steps, i),
        }
    }
}

impl fmt::Display for Place<'_> {
    ghost use Rattle.std.specs.Prelude.{Some};

    ghost output = { λ place. Some place };

    fn fmt<W: fmt::Write>(&self, f: &mut fmt::Formatter<W>) -> fmt::Result {
        let steps = &self.steps;
        write!(f, "{steps}")
    }
}
