//! What holds of every picture, as clauses of functions that do nothing.

ghost use Rattle.gq_svg.specs.Laws.{ContentsDiffer, EndsNothing, HaveColumns, IsReadBack, SideBySide};

/// No byte of a name or a content ends an element or an attribute of the picture.
#[tactic(auto, using(crate::proofs::Reading::ends_nothing))]
pub fn escaped_ends_nothing()
    ensures { EndsNothing }
{}

/// Who reads a picture as XML reads each name and each text of a content as it is.
#[tactic(auto, using(crate::proofs::Reading::is_read_back))]
pub fn escaped_is_read_back()
    ensures { IsReadBack }
{}

/// Titles tell contents apart: where two are the same, so are the contents.
#[tactic(auto, using(crate::proofs::Telling::contents_differ))]
pub fn contents_differ()
    ensures { ContentsDiffer }
{}

/// What stands further to the right in a drawing does so in its picture, by 21 pixels a column.
#[tactic(auto, using(crate::proofs::Places::side_by_side))]
pub fn columns_stand_side_by_side()
    ensures { SideBySide }
{}

/// The columns that have a place suffice: no list of operations has more.
#[tactic(auto, using(crate::proofs::Places::have_columns))]
pub fn columns_have_places()
    ensures { HaveColumns }
{}
