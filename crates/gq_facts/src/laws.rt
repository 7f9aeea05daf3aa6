//! What is read of the lines of facts.

ghost use Rattle.gq_facts.specs.Laws.{FactsReadBack, FactsStandInBatches};

/// The line of a fact is read as that fact.
pub fn facts_read_back()
    ensures { FactsReadBack }
{}

/// The line of a fact may stand in a batch of a journal.
pub fn facts_stand_in_batches()
    ensures { FactsStandInBatches }
{}
