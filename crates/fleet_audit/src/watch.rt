//! Who looks on while an audit goes on.
use verdict::Verdict;

/// Told of each verdict of an audit by the worker that came to it, once it has (own profile). It changes none of them. A watch
/// that workers share is `Sync`.
pub trait Watch {
    /// Told of the verdict on the text at this seat.
    fn judged(&self, seat: usize, verdict: &Verdict);
}

/// A watch that looks away.
#[derive(Clone, Copy, Debug, Drop)]
pub struct Unwatched;

impl Watch for Unwatched {
    fn judged(&self, _seat: usize, _verdict: &Verdict) {}
}
