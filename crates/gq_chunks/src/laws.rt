//! What is read of lines that are written, and what lines of several tenants make.

ghost use Rattle.gq_chunks.specs.Alone.{TenantsApart};
ghost use Rattle.gq_chunks.specs.Columns.{SaysAsColumn};
ghost use Rattle.gq_chunks.specs.Laws.{ContentsAreShort, ContentsReadBack, FactsReadBack, FactsStandInBatches, RequestsReadBack, SayingsReadBack};

/// The line of a fact is read as that fact, of its tenant.
pub fn facts_read_back()
    ensures { FactsReadBack }
{}

/// The line of a fact may stand in a batch of a journal.
pub fn facts_stand_in_batches()
    ensures { FactsStandInBatches }
{}

/// The words of a request are read as that request.
pub fn requests_read_back()
    ensures { RequestsReadBack }
{}

/// What nodes of a column write to each other about chunks is read as that.
pub fn sayings_read_back()
    ensures { SayingsReadBack }
{}

/// Whatever lines all tenants sent, and peers said: what one tenant is told, and what is kept of it, is what comes of its own lines, of what peers say of it, and of ticks.
pub fn tenants_apart()
    ensures { TenantsApart }
{}

/// A content that is told is read as the same bytes.
pub fn contents_read_back()
    ensures { ContentsReadBack }
{}

/// A content that is told takes at most two bytes for each of its own, and one more. So no line is longer than what carriers take.
pub fn contents_are_short()
    ensures { ContentsAreShort }
{}

/// What a node's lines say of contents is what the law of a column takes its acts to be: who says that there is none has none, `kept` is told of what is kept alone, only who lacks nothing
/// answers, and only who stands in the same column is heard. A new node lacks what it was not given.
pub fn says_as_column()
    ensures { SaysAsColumn }
{}
