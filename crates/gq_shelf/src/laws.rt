//! What the clauses of a shelf give together.

ghost use Rattle.gq_shelf.specs.Apart.{NoPlaceTwice};

/// Whatever calls a shelf takes, no byte of what is put lies where one of an earlier content was put.
pub fn no_place_twice()
    ensures { NoPlaceTwice }
{}
