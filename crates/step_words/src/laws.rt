//! Laws of steps in words, over all texts.
ghost use Rattle.step_words.specs.TextLaws.{EncodedIsDecoded};

/// What is made of steps in words is made into the same words again: each step has one form in words.
pub fn encoded_is_decoded()
    ensures { EncodedIsDecoded }
{}
