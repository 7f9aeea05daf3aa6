//! What the forms of the texts mean, apart from how they are read.

ghost use Rattle.gq_lines.specs.Laws.{BytesReadBack, DigitsReadBack, LongNumbersHaveOneForm, LongNumbersReadBack, NumbersHaveOneForm, NumbersReadBack};

/// A number's decimal text is read as that number.
pub fn numbers_read_back()
    ensures short { NumbersReadBack }
    ensures long { LongNumbersReadBack }
{}

/// No other text is read as a number, and none as one above 4,294,967,295, or 18,446,744,073,709,551,615 where it is long.
pub fn numbers_have_one_form()
    ensures short { NumbersHaveOneForm }
    ensures long { LongNumbersHaveOneForm }
{}

/// A content is read from its digits and from its bytes, as they are written.
pub fn contents_read_back()
    ensures digits { DigitsReadBack }
    ensures bytes { BytesReadBack }
{}
