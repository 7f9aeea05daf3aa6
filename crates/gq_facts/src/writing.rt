//! Facts as they are written.

ghost use Rattle.std.specs.Prelude.{◌≡◌, ◌<◌, ◌++◌, [], length, OnOk, OnErr};
ghost use Rattle.gq_lines.specs.Written.{line_text, Extends};
ghost use Rattle.gq_node.specs.declared.output.Fact.TheVariants.{Kept};
ghost use Rattle.gq_node.specs.Recalling.{tenant_of};
ghost use Rattle.gq_facts.specs.Facts.{fact_words, fact_text};

use gq_desk::Plan;
use gq_memory::{GrowCopies, OutOfMemory};
use gq_node::Fact;
use gq_tag::{FileId, StoredCopy};
use gq_text::{Piece, put_words};

// Appends what stands behind the verb in the line of a file and its copy.
fn put_copy<'x>(
    out: &mut Vec<u8>,
    plan: &'x Plan,
    file: FileId,
    copy: &'x StoredCopy,
) -> Result<(), OutOfMemory>
    requires { file.tenant < length plan.now.rows }
    ensures ok { OnOk result (out.new.items ≡ out.old.items ++ line_text [] (fact_words plan.now (Kept file copy.now))) }
    ensures err { OnErr result (Extends out.old.items out.new.items) }
{
    put_words(
        out,
        &[
            Piece::Text(plan.row(file.tenant).name.as_bytes()),
            Piece::Number(u64::from(file.volume)),
            Piece::Number(u64::from(file.file)),
            Piece::Number(copy.tag.number),
            Piece::Number(u64::from(copy.tag.session)),
            Piece::Bytes(copy.bytes.as_slice()),
        ],
    )
}

/// Appends the line of a fact, with its newline, to a text. Where memory is wanting a part of the line may have been appended.
pub fn put_fact(out: &mut Vec<u8>, plan: &Plan, fact: &Fact) -> Result<(), OutOfMemory>
    requires { tenant_of fact.now < length plan.now.rows }
    ensures ok { OnOk result (out.new.items ≡ out.old.items ++ fact_text plan.now fact.now) }
    ensures err { OnErr result (Extends out.old.items out.new.items) }
{
    match fact {
        Fact::Began {
            tenant,
            session,
            op,
        } => {
            out.grow_by(b"began")?;
            put_words(
                out,
                &[
                    Piece::Text(plan.row(*tenant).name.as_bytes()),
                    Piece::Number(u64::from(*session)),
                    Piece::Number(u64::from(*op)),
                ],
            )
        }
        Fact::Numbered {
            tenant,
            session,
            number,
        } => {
            out.grow_by(b"numbered")?;
            put_words(
                out,
                &[
                    Piece::Text(plan.row(*tenant).name.as_bytes()),
                    Piece::Number(u64::from(*session)),
                    Piece::Number(*number),
                ],
            )
        }
        Fact::Kept { file, copy } => {
            out.grow_by(b"kept")?;
            put_copy(out, plan, *file, copy)
        }
        Fact::Had { file, copy } => {
            out.grow_by(b"had")?;
            put_copy(out, plan, *file, copy)
        }
    }
}
