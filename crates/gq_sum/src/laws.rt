//! What a sum shows of a text that was changed.

ghost use Rattle.gq_sum.specs.Laws.{ChangedWordsShow, NumbersShow};

/// A change within one word changes the sum.
pub fn changed_words_show()
    ensures { ChangedWordsShow }
{}

/// The same text has another sum with another number.
pub fn numbers_show()
    ensures { NumbersShow }
{}
