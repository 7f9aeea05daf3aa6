//! Bytes that are written are read again.

ghost use Rattle.gq_escape.specs.Laws.{AtMostTwice, BytesAreAWord, BytesReadBack};

/// Bytes are read as they were written.
pub fn bytes_read_back()
    ensures { BytesReadBack }
{}

/// What is written has no newline and no space.
pub fn bytes_are_a_word()
    ensures { BytesAreAWord }
{}

/// Each byte is written as at most two.
pub fn at_most_twice()
    ensures { AtMostTwice }
{}
