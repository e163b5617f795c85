//! Laws of the words of values, over all values and texts.
ghost use Rattle.value_words.specs.WordLaws.{WrittenIsRead, ReadIsWritten};

/// The words of a value that is nested at most 16 are read as that value, where nothing that follows continues them.
pub fn written_is_read()
    ensures { WrittenIsRead }
{}

/// What is read as a value are the words of that value, so that each value has one form.
pub fn read_is_written()
    ensures { ReadIsWritten }
{}
