//! What holds of any requests of any tenants, of what peers give, and of chunks that are moved, as clauses of functions that do nothing.

ghost use Rattle.gq_depot.specs.Laws.{Apart, FactsRemake, MemoryIsBounded};
ghost use Rattle.gq_depot.specs.Moving.{MovesTellSame};
ghost use Rattle.gq_depot.specs.Segments.{NoneAgain};

/// Whatever all tenants asked, and peers gave: what one of them was told, and what is kept of it, is what comes of its own requests and of what was given of it.
pub fn apart()
    ensures { Apart }
{}

/// What a tenant has is what the facts of its requests, and of what was given of it, make of what it had. So a start that reads these makes the same again.
pub fn facts_remake()
    ensures { FactsRemake }
{}

/// Whatever a tenant asked, and peers gave of it: no more bytes of its contents are in memory than `MOST_FRESH_BYTES`, or than there were.
pub fn memory_is_bounded()
    ensures { MemoryIsBounded }
{}

/// A segment of the shelf in which no chunk of a tenant lies has none of the tenant's behind a start either.
pub fn none_again()
    ensures { NoneAgain }
{}

/// A chunk that is moved is told as before: the same bytes, where no read was wrong, as many of them, and told or not as it was. All other chunks, floors and the room are as they were.
pub fn moves_tell_same()
    ensures { MovesTellSame }
{}
