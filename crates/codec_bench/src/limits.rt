/// How many bytes an input may have.
pub(crate) const MOST_BYTES: usize = 0x100_0000;
