//! Where steps lead in a text.

/// A step to a value of a document.
#[derive(Debug, Drop)]
pub enum Step {
    /// The key of a table.
    Key(String),
    /// The index of an element of an array, from 0.
    Element(usize),
}

/// What steps lead to in a text, by how many bytes are before it. After them a character begins, or the text ends.
#[derive(Clone, Copy, Debug, PartialEq, Eq, Drop)]
pub enum Spot {
    /// A key, or an element of an array, with its value: how many bytes are before the key (for an element: before the element),
    /// and before the value. A key with dots is one key. For a table that a header makes both are those before the header's `[`;
    /// for a table or an array that has no key and no header of its own, both are those before the first key or header that names
    /// it in passing.
    Found { key: usize, value: usize },
    /// The last step leads to nothing in a table or an array that is after so many bytes (its header's `[`, its `{`, its `[`,
    /// or 0 for the text's own table): a key is missing there. A table or an array that has no key and no header of its own is
    /// where it is first named.
    Missing { within: usize },
}
