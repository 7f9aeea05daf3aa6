//! The form of a journal. This program writes the first form, in which a journal begins with its plan. One of any later form begins with a line
//! `journal` and the form's number, so that no program takes it for one that it knows.

ghost use Rattle.std.specs.Prelude.{◌≡◌};
ghost use Rattle.gq_service.specs.Forms.{form_of};

use gq_journal::first_whole_line;
use gq_lines::{first_word, next_word, number};

/// The form that the journal of this text says it has; none where it says none, as the first form does.
#[tactic(auto, unfolding(crate::specs::Forms::form_by))]
pub(crate) fn form_of(journal: &[u8]) -> Option<u32>
    ensures { result ≡ form_of journal.now }
{
    let (line, _) = first_whole_line(journal)?;
    let (word, rest) = first_word(line);
    if word != b"journal".as_slice() {
        return None;
    }
    let (form, _) = next_word(rest)?;
    number(form)
}
