//! The theorems: each clause is a statement, and each body is empty.
ghost use Rattle.reply_sizes.specs.Lengths.{ReplyLengthsFitFourBytes, RepliesCanBeWritten};

/// The encoding of every value that a sound plan's meter replies has fewer than 2^32 bytes, so that a number of four bytes
/// counts its bytes, and its blocks too.
pub fn reply_lengths_fit_four_bytes()
    ensures { ReplyLengthsFitFourBytes }
{}

/// Every value that a sound plan's meter replies can be written: its lengths and counts fit four bytes.
pub fn replies_can_be_written()
    ensures { RepliesCanBeWritten }
{}
