//! What is read of the lines that are written.

ghost use Rattle.gq_wire.specs.Laws.{AllJoinsReadBack, CopiesInDigitsReadBack, FormsReadBack, LettersReadBack, LooksReadBack, ShortsReadBack, TransfersReadBack, PassesOver, PlansReadBack, RequestsReadBack, TornLinesHaveNoForm, WritesReadBack};

/// The line of a letter, up to its newline, is read by the node that it is to as that letter.
pub fn letters_read_back()
    ensures { LettersReadBack }
{}

/// The line of a short letter, up to its newline, is read by the node that it is to as that short letter.
pub fn shorts_read_back()
    ensures { ShortsReadBack }
{}

/// A copy is read from digits too, as nodes wrote it before.
pub fn copies_in_digits_read_back()
    ensures { CopiesInDigitsReadBack }
{}

/// The other lines between nodes are read so by the node that they are to: those between a new node and others, that is a line about a file, the
/// question whether a plan has the node, and its answer; and the form of lines that a node tells.
pub fn transfers_read_back()
    ensures transfers { TransfersReadBack }
    ensures joins { AllJoinsReadBack }
    ensures forms { FormsReadBack }
{}

/// The line of a request is read by the node that it is to as that request, with the number of its operation, whether a content is
/// written in digits or in bytes; and those by which a tenant asks what it has, and what a server has of a volume, as these questions.
pub fn requests_read_back()
    ensures requests { RequestsReadBack }
    ensures writes { WritesReadBack }
    ensures plans { PlansReadBack }
    ensures looks { LooksReadBack }
{}

/// A node passes over what nodes write to tenants, and to other nodes.
pub fn passes_over()
    ensures { PassesOver }
{}

/// The first line that a node writes, with what a kill tore before it, is no request, no question, no line between nodes and no tick.
pub fn torn_lines_have_no_form()
    ensures { TornLinesHaveNoForm }
{}
