//! Laws of the encoding, over all values and bytes.
ghost use Rattle.cosem_axdr.specs.Laws.{NoEncodingBeginsAnother, CanonicalIsEncoding, WrittenIsRead, FirstFaultDecides, ShortIsFront, SmallHasLengths};

/// No encoding begins another that is longer, and none is that of two values.
pub fn no_encoding_begins_another()
    ensures { NoEncodingBeginsAnother }
{}

/// The canonical form is an encoding.
pub fn canonical_is_encoding()
    ensures { CanonicalIsEncoding }
{}

/// What was written of a value that is nested at most 16 is read again, whatever follows.
pub fn written_is_read()
    ensures { WrittenIsRead }
{}

/// The first bad byte from the left decides the fault: the bytes before it are the front of a value, and nothing behind it matters.
/// `Short` is told of the fronts of values, of which bytes are missing.
pub fn first_fault_decides()
    ensures bad_byte { FirstFaultDecides }
    ensures missing_bytes { ShortIsFront }
{}

/// A value whose canonical form is at most 2^32 - 1 bytes long can be written: its lengths and counts are below 2^32.
pub fn small_has_lengths()
    ensures { SmallHasLengths }
{}
