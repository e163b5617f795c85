//! The forms in which a trail is printed.

/// A form in which a trail is printed (own profile).
#[derive(Clone, Copy, Debug, PartialEq, Eq)]
pub enum TrailForm {
    /// A line for the head, and one for each step.
    Lines,
    /// One JSON object (RFC 8259), and a newline.
    Json,
}
