//! The lines between nodes, and the first line that a node writes.

ghost use Rattle.std.specs.Prelude.{◌≡◌, [], ◌∷◌, ◌++◌, ◌<◌, length, decimal, OnOk, OnErr};
ghost use Rattle.std.specs.List.{flat_map};
ghost use Rattle.gq_lines.specs.Written.{line_text, Extends, first_text};
ghost use Rattle.gq_text.specs.Pieces.{words_in};
ghost use Rattle.gq_node.specs.declared.output.Transfer.TheVariants.{Wants, Brings};
ghost use Rattle.gq_node.specs.declared.shorts.ShortBody.TheVariants.{Want};
ghost use Rattle.gq_wire.specs.Texts.{copy_words, headed, letter_line, tag_words, short_body_words, short_headed, short_line, transfer_file, transfer_line, joins_line, joined_line, speaks_line};

use gq_desk::Plan;
use gq_lines::put_number;
use gq_memory::{GrowCopies, OutOfMemory};
use gq_node::{Short, ShortBody, Transfer};
use gq_tag::{Body, FileId, Message, StoredCopy, Tag};
use gq_text::{Piece, put_words};

/// Appends the first line that a node writes: with it behind them, the bytes of a line that was torn before have no form.
pub fn put_first(out: &mut Vec<u8>) -> Result<(), OutOfMemory>
    ensures ok { OnOk result (out.new.items ≡ out.old.items ++ first_text) }
    ensures err { OnErr result (out.new.items ≡ out.old.items) }
{
    out.grow_by(b" ?\n")
}

// Appends a line to that node.
fn put_line(out: &mut Vec<u8>, to: u16, words: &[Piece]) -> Result<(), OutOfMemory>
    ensures ok { OnOk result (out.new.items ≡ out.old.items ++ line_text (decimal to) (flat_map words_in words.now)) }
    ensures err { OnErr result (Extends out.old.items out.new.items) }
{
    put_number(out, u64::from(to))?;
    put_words(out, words)
}

// Appends the line of a letter whose body is this word.
fn put_bare<'x>(
    out: &mut Vec<u8>,
    plan: &'x Plan,
    to: u16,
    from: u16,
    message: &Message,
    word: &'x [u8],
) -> Result<(), OutOfMemory>
    requires { message.now.tenant < length plan.now.rows }
    ensures ok { OnOk result (out.new.items ≡ out.old.items ++ line_text (decimal to) (decimal from ∷ headed plan.now message.now (word.now ∷ []))) }
    ensures err { OnErr result (Extends out.old.items out.new.items) }
{
    put_line(
        out,
        to,
        &[
            Piece::Number(u64::from(from)),
            Piece::Text(plan.row(message.tenant).name.as_bytes()),
            Piece::Number(u64::from(message.session)),
            Piece::Number(u64::from(message.op)),
            Piece::Number(u64::from(message.round)),
            Piece::Number(u64::from(message.file.volume)),
            Piece::Number(u64::from(message.file.file)),
            Piece::Text(word),
        ],
    )
}

// Appends the line of a letter whose body is this word and a copy.
fn put_with_copy<'x>(
    out: &mut Vec<u8>,
    plan: &'x Plan,
    to: u16,
    from: u16,
    message: &Message,
    word: &'x [u8],
    copy: &'x StoredCopy,
) -> Result<(), OutOfMemory>
    requires { message.now.tenant < length plan.now.rows }
    ensures ok { OnOk result (out.new.items ≡ out.old.items ++ line_text (decimal to) (decimal from ∷ headed plan.now message.now (word.now ∷ copy_words copy.now))) }
    ensures err { OnErr result (Extends out.old.items out.new.items) }
{
    put_line(
        out,
        to,
        &[
            Piece::Number(u64::from(from)),
            Piece::Text(plan.row(message.tenant).name.as_bytes()),
            Piece::Number(u64::from(message.session)),
            Piece::Number(u64::from(message.op)),
            Piece::Number(u64::from(message.round)),
            Piece::Number(u64::from(message.file.volume)),
            Piece::Number(u64::from(message.file.file)),
            Piece::Text(word),
            Piece::Number(copy.tag.number),
            Piece::Number(u64::from(copy.tag.session)),
            Piece::Bytes(copy.bytes.as_slice()),
        ],
    )
}

/// Appends the line of a letter to that node from this one, or a part of it where memory is refused.
pub fn put_letter(
    out: &mut Vec<u8>,
    plan: &Plan,
    to: u16,
    from: u16,
    message: &Message,
) -> Result<(), OutOfMemory>
    requires { message.now.tenant < length plan.now.rows }
    ensures ok { OnOk result (out.new.items ≡ out.old.items ++ letter_line plan.now to from message.now) }
    ensures err { OnErr result (Extends out.old.items out.new.items) }
{
    match &message.body {
        Body::Ask => put_bare(out, plan, to, from, message, b"ask"),
        Body::Store(copy) => put_with_copy(out, plan, to, from, message, b"store", copy),
        Body::Copy(copy) => put_with_copy(out, plan, to, from, message, b"copy", copy),
        Body::Stored => put_bare(out, plan, to, from, message, b"stored"),
    }
}

// Appends the line of a short letter whose body is this word and a tag.
fn put_with_tag<'x>(
    out: &mut Vec<u8>,
    plan: &'x Plan,
    to: u16,
    from: u16,
    short: &Short,
    word: &'x [u8],
    tag: Tag,
) -> Result<(), OutOfMemory>
    requires { short.now.tenant < length plan.now.rows }
    ensures ok { OnOk result (out.new.items ≡ out.old.items ++ line_text (decimal to) (decimal from ∷ short_headed plan.now short.now (word.now ∷ tag_words tag))) }
    ensures err { OnErr result (Extends out.old.items out.new.items) }
{
    put_line(
        out,
        to,
        &[
            Piece::Number(u64::from(from)),
            Piece::Text(plan.row(short.tenant).name.as_bytes()),
            Piece::Number(u64::from(short.session)),
            Piece::Number(u64::from(short.op)),
            Piece::Number(u64::from(short.round)),
            Piece::Number(u64::from(short.file.volume)),
            Piece::Number(u64::from(short.file.file)),
            Piece::Text(word),
            Piece::Number(tag.number),
            Piece::Number(u64::from(tag.session)),
        ],
    )
}

// Appends the line of a short letter by which a server wants a store whole.
fn put_want<'x>(
    out: &mut Vec<u8>,
    plan: &'x Plan,
    to: u16,
    from: u16,
    short: &Short,
) -> Result<(), OutOfMemory>
    requires { short.now.tenant < length plan.now.rows }
    ensures ok { OnOk result (out.new.items ≡ out.old.items ++ line_text (decimal to) (decimal from ∷ short_headed plan.now short.now (short_body_words Want))) }
    ensures err { OnErr result (Extends out.old.items out.new.items) }
{
    put_line(
        out,
        to,
        &[
            Piece::Number(u64::from(from)),
            Piece::Text(plan.row(short.tenant).name.as_bytes()),
            Piece::Number(u64::from(short.session)),
            Piece::Number(u64::from(short.op)),
            Piece::Number(u64::from(short.round)),
            Piece::Number(u64::from(short.file.volume)),
            Piece::Number(u64::from(short.file.file)),
            Piece::Text(b"want"),
        ],
    )
}

/// Appends the line of a short letter to that node from this one, or a part of it where memory is refused.
pub fn put_short(
    out: &mut Vec<u8>,
    plan: &Plan,
    to: u16,
    from: u16,
    short: &Short,
) -> Result<(), OutOfMemory>
    requires { short.now.tenant < length plan.now.rows }
    ensures ok { OnOk result (out.new.items ≡ out.old.items ++ short_line plan.now to from short.now) }
    ensures err { OnErr result (Extends out.old.items out.new.items) }
{
    match short.body {
        ShortBody::AskAbove(tag) => put_with_tag(out, plan, to, from, short, b"ask", tag),
        ShortBody::Tagged(tag) => put_with_tag(out, plan, to, from, short, b"tag", tag),
        ShortBody::Confirm(tag) => put_with_tag(out, plan, to, from, short, b"confirm", tag),
        ShortBody::Want => put_want(out, plan, to, from, short),
    }
}

// Appends the line by which the node of that number is asked for its copy of the file.
fn put_fetch<'x>(
    out: &mut Vec<u8>,
    plan: &'x Plan,
    to: u16,
    from: u16,
    file: FileId,
) -> Result<(), OutOfMemory>
    requires { file.tenant < length plan.now.rows }
    ensures ok { OnOk result (out.new.items ≡ out.old.items ++ transfer_line plan.now from (Wants to file)) }
    ensures err { OnErr result (Extends out.old.items out.new.items) }
{
    put_line(
        out,
        to,
        &[
            Piece::Number(u64::from(from)),
            Piece::Text(plan.row(file.tenant).name.as_bytes()),
            Piece::Text(b"fetch"),
            Piece::Number(u64::from(file.volume)),
            Piece::Number(u64::from(file.file)),
        ],
    )
}

// Appends the line by which the node of that number is given the copy of the file.
fn put_fetched<'x>(
    out: &mut Vec<u8>,
    plan: &'x Plan,
    to: u16,
    from: u16,
    file: FileId,
    copy: &'x StoredCopy,
) -> Result<(), OutOfMemory>
    requires { file.tenant < length plan.now.rows }
    ensures ok { OnOk result (out.new.items ≡ out.old.items ++ transfer_line plan.now from (Brings to file copy.now)) }
    ensures err { OnErr result (Extends out.old.items out.new.items) }
{
    put_line(
        out,
        to,
        &[
            Piece::Number(u64::from(from)),
            Piece::Text(plan.row(file.tenant).name.as_bytes()),
            Piece::Text(b"fetched"),
            Piece::Number(u64::from(file.volume)),
            Piece::Number(u64::from(file.file)),
            Piece::Number(copy.tag.number),
            Piece::Number(u64::from(copy.tag.session)),
            Piece::Bytes(copy.bytes.as_slice()),
        ],
    )
}

/// Appends the line of a transfer from this node to the one that it is for, or a part of it where memory is refused.
pub fn put_transfer(
    out: &mut Vec<u8>,
    plan: &Plan,
    from: u16,
    transfer: &Transfer,
) -> Result<(), OutOfMemory>
    requires { (transfer_file transfer.now).tenant < length plan.now.rows }
    ensures ok { OnOk result (out.new.items ≡ out.old.items ++ transfer_line plan.now from transfer.now) }
    ensures err { OnErr result (Extends out.old.items out.new.items) }
{
    match transfer {
        Transfer::Wants { to, file } => put_fetch(out, plan, *to, from, *file),
        Transfer::Brings { to, file, copy } => put_fetched(out, plan, *to, from, *file, copy),
    }
}

// Appends a line to that node of this word and this number.
fn put_numbered(
    out: &mut Vec<u8>,
    to: u16,
    from: u16,
    word: &[u8],
    number: u64,
) -> Result<(), OutOfMemory>
    ensures ok { OnOk result (out.new.items ≡ out.old.items ++ line_text (decimal to) (decimal from ∷ word.now ∷ decimal number ∷ [])) }
    ensures err { OnErr result (Extends out.old.items out.new.items) }
{
    put_line(
        out,
        to,
        &[
            Piece::Number(u64::from(from)),
            Piece::Text(word),
            Piece::Number(number),
        ],
    )
}

/// Appends the line by which the node `from`, which is new, asks the node `to` whether its plan has it, and so many losses or more, or a
/// part of it where memory is refused.
pub fn put_joins(out: &mut Vec<u8>, to: u16, from: u16, losses: u64) -> Result<(), OutOfMemory>
    ensures ok { OnOk result (out.new.items ≡ out.old.items ++ joins_line to from losses) }
    ensures err { OnErr result (Extends out.old.items out.new.items) }
{
    put_numbered(out, to, from, b"joins", losses)
}

/// Appends the line by which the node `from` answers that of the number `to` that its plan has it, and so many losses or more, or a part
/// of it where memory is refused.
pub fn put_joined(out: &mut Vec<u8>, to: u16, from: u16, losses: u32) -> Result<(), OutOfMemory>
    ensures ok { OnOk result (out.new.items ≡ out.old.items ++ joined_line to from losses) }
    ensures err { OnErr result (Extends out.old.items out.new.items) }
{
    put_numbered(out, to, from, b"joined", u64::from(losses))
}

/// Appends the line by which the node `from` tells that of the number `to` that it speaks all forms of lines between nodes up to this one, or
/// a part of it where memory is refused.
pub fn put_speaks(out: &mut Vec<u8>, to: u16, from: u16, form: u32) -> Result<(), OutOfMemory>
    ensures ok { OnOk result (out.new.items ≡ out.old.items ++ speaks_line to from form) }
    ensures err { OnErr result (Extends out.old.items out.new.items) }
{
    put_numbered(out, to, from, b"speaks", u64::from(form))
}
