//! Bytes that are written are read again.

ghost use Rattle.gq_quote.specs.Laws.{AtMostFourTimes, BytesAreAWord, BytesReadBack};

/// Bytes are read as they were written.
pub fn bytes_read_back()
    ensures { BytesReadBack }
{}

/// What is written has no newline and no space.
pub fn bytes_are_a_word()
    ensures { BytesAreAWord }
{}

/// Each byte is written as at most four.
pub fn at_most_four_times()
    ensures { AtMostFourTimes }
{}
