//! The laws, as clauses of functions that do nothing.

ghost use Rattle.gq_splitting.specs.Parts.{AllCountsShow, AllPartsShow};

/// What a page says of the names of a bucket is what the law's page has of the names inside.
pub fn parts_show()
    ensures { AllPartsShow }
{}

/// And so is what counts of a session: its page at a level, or as long as that was not written the part of the one before.
pub fn counts_show()
    ensures { AllCountsShow }
{}
