//! The law, as a clause of a function that does nothing.

ghost use Rattle.gq_looking.specs.Heard.{AllSettledAreLooks};

/// Where a tag settles a file by what nodes told of their copies while the look went on, it is a look of the law, which gives the copy with this tag: a read.
pub fn settled_are_looks()
    ensures { AllSettledAreLooks }
{}
