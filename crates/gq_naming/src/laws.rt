//! The laws, as clauses of functions that do nothing.

ghost use Rattle.gq_naming.specs.Laws.{AllAnswersStep, AllChangesPages, AllChangesStep, AllChangesSweep, AllChoicesStep, AllEntersStep, AllGetsTell, AllListsStand, AllLooksBegin, AllLooksClose, AllNumbersAbove, AllReadsStep, AllRowsStep};

/// The journal of a change is the one that the law's client announces, where it chooses this number, these lines to go, and these pages to be asked for.
pub fn changes_step()
    ensures { AllChangesStep }
{}

/// A number above the highest one that a client has seen is one that the law's client may choose.
pub fn numbers_are_above()
    ensures { AllNumbersAbove }
{}

/// A page that a client writes has one line of a name at most, as long as those before had.
pub fn changes_are_pages()
    ensures { AllChangesPages }
{}

/// Who wants no page any more has seen pages that ask for nothing more than was seen.
pub fn looks_are_closed()
    ensures { AllLooksClose }
{}

/// What is told of a name is what the law tells.
pub fn gets_tell()
    ensures { AllGetsTell }
{}

/// What a client chooses is a step of the law's client: *Chooses*.
pub fn choices_step()
    ensures { AllChoicesStep }
{}

/// And so are the answers to its writes: of its journal, and then of its page.
pub fn answers_step()
    ensures { AllAnswersStep }
{}

/// With a change goes all that can go.
pub fn changes_sweep()
    ensures { AllChangesSweep }
{}

/// A client that has read its journal is one that has entered.
pub fn enters_step()
    ensures { AllEntersStep }
{}

/// One that begins to look begins a change.
pub fn looks_begin()
    ensures { AllLooksBegin }
{}

/// A listing tells which pages are seen without being read.
pub fn rows_step()
    ensures { AllRowsStep }
{}

/// The others are awaited.
pub fn lists_stand()
    ensures { AllListsStand }
{}

/// Until each was read.
pub fn reads_step()
    ensures { AllReadsStep }
{}
