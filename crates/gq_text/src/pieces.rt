//! Words straight into a buffer.

ghost use Rattle.std.specs.Prelude.{◌≡◌, ◌+◌, ◌%◌, ◌<◌, ◌≤◌, [], ◌∷◌, ◌++◌, length, map, decimal, vec_len, vec_capacity, OnOk, OnErr};
ghost use Rattle.std.specs.List.{flat_map};
ghost use Rattle.gq_grid.specs.Grid.{rising};
ghost use Rattle.gq_grid.specs.Sets.{servers};
ghost use Rattle.gq_lines.specs.Written.{spaced, ended, Extends};
ghost use Rattle.gq_text.specs.AnswerText.{volume_word, file_word, tag_words, range_words};
ghost use Rattle.gq_text.specs.Pieces.{words_in};

use gq_desk::VolumeRow;
use gq_grid::{Grid, ServerSet};
use gq_lines::{put_bytes, put_content, put_number, put_spaced_number, put_sum, put_word};
use gq_memory::{GrowCopies, GrowVec, OutOfMemory};
use gq_phase::Row;
use gq_tag::Tag;

/// Words of a line of output.
#[derive(Clone, Copy)]
pub enum Piece<'a> {
    /// A word as it is, or several with their spaces.
    Text(&'a [u8]),
    /// A number in decimal digits.
    Number(u64),
    /// `tag`, its number and its session.
    OfTag(Tag),
    /// The numbers of the first and the last of so many messages, or `none`: the first number, and how many there are.
    Range(u64, u32),
    /// A content in hexadecimal, `-` where it is empty.
    Content(&'a [u8]),
    /// A content as its bytes, `-` where it is empty.
    Bytes(&'a [u8]),
    /// The servers of a set in rising number.
    Servers(&'a Grid, ServerSet),
    /// Each volume as `FILESxBLOCKS`.
    Volumes(&'a [VolumeRow]),
    /// Each file of a listing as `LENGTH:NUMBER.SESSION`.
    Files(&'a [Row]),
}

// Appends a tag.
fn put_tag(out: &mut Vec<u8>, tag: Tag) -> Result<(), OutOfMemory>
    ensures ok { OnOk result (out.new.items ≡ out.old.items ++ spaced (tag_words tag)) }
    ensures err { OnErr result (Extends out.old.items out.new.items) }
{
    out.grow_by(b" tag ")?;
    put_number(out, tag.number)?;
    put_spaced_number(out, u64::from(tag.session))
}

// Appends the numbers of the first and the last of so many messages.
fn put_range(out: &mut Vec<u8>, first: u64, count: u32) -> Result<(), OutOfMemory>
    ensures ok { OnOk result (out.new.items ≡ out.old.items ++ spaced (range_words first count)) }
    ensures err { OnErr result (Extends out.old.items out.new.items) }
{
    if count == 0 {
        return out.grow_by(b" none");
    }
    put_spaced_number(out, first)?;
    out.grow_by(b" to ")?;
    put_sum(out, first, count - 1)
}

// Appends the servers of a set, rising.
fn put_servers(out: &mut Vec<u8>, grid: &Grid, set: ServerSet) -> Result<(), OutOfMemory>
    ensures ok { OnOk result (out.new.items ≡
        out.old.items ++ spaced (map decimal (rising grid.now (servers set)))) }
    ensures err { OnErr result (Extends out.old.items out.new.items) }
{
    for server in 0..grid.servers() {
        if set.has(server) {
            put_spaced_number(out, server as u64)?;
        }
    }
    Ok(())
}

// Appends a volume.
fn put_volume(out: &mut Vec<u8>, volume: &VolumeRow) -> Result<(), OutOfMemory>
    ensures ok { OnOk result (out.new.items ≡ out.old.items ++ 32 ∷ volume_word volume.now) }
    ensures err { OnErr result (Extends out.old.items out.new.items) }
{
    put_spaced_number(out, u64::from(volume.files))?;
    out.grow(b'x')?;
    put_number(out, u64::from(volume.blocks))
}

// Appends volumes.
fn put_volumes(out: &mut Vec<u8>, volumes: &[VolumeRow]) -> Result<(), OutOfMemory>
    ensures ok { OnOk result (out.new.items ≡ out.old.items ++ spaced (map volume_word volumes.now)) }
    ensures err { OnErr result (Extends out.old.items out.new.items) }
{
    for volume in volumes {
        put_volume(out, volume)?;
    }
    Ok(())
}

// Appends a file of a listing.
fn put_file(out: &mut Vec<u8>, file: &Row) -> Result<(), OutOfMemory>
    ensures ok { OnOk result (out.new.items ≡ out.old.items ++ 32 ∷ file_word file.now) }
    ensures err { OnErr result (Extends out.old.items out.new.items) }
{
    put_spaced_number(out, file.length)?;
    out.grow(b':')?;
    put_number(out, file.tag.number)?;
    out.grow(b'.')?;
    put_number(out, u64::from(file.tag.session))
}

// Appends the files of a listing.
fn put_files(out: &mut Vec<u8>, files: &[Row]) -> Result<(), OutOfMemory>
    ensures ok { OnOk result (out.new.items ≡ out.old.items ++ spaced (map file_word files.now)) }
    ensures err { OnErr result (Extends out.old.items out.new.items) }
{
    for file in files {
        put_file(out, file)?;
    }
    Ok(())
}

// Appends the words of a piece.
#[inline(always)]
fn put_piece(out: &mut Vec<u8>, piece: Piece) -> Result<(), OutOfMemory>
    ensures ok { OnOk result (out.new.items ≡ out.old.items ++ spaced (words_in piece.entry)) }
    ensures err { OnErr result (Extends out.old.items out.new.items) }
{
    match piece {
        Piece::Text(word) => put_word(out, word),
        Piece::Number(n) => put_spaced_number(out, n),
        Piece::OfTag(tag) => put_tag(out, tag),
        Piece::Range(first, count) => put_range(out, first, count),
        Piece::Content(bytes) => put_content(out, bytes),
        Piece::Bytes(bytes) => put_bytes(out, bytes),
        Piece::Servers(grid, set) => put_servers(out, grid, set),
        Piece::Volumes(volumes) => put_volumes(out, volumes),
        Piece::Files(files) => put_files(out, files),
    }
}

// Appends the words of pieces.
#[inline(always)]
fn put_pieces(out: &mut Vec<u8>, pieces: &[Piece]) -> Result<(), OutOfMemory>
    ensures ok { OnOk result (out.new.items ≡ out.old.items ++ spaced (flat_map words_in pieces.now)) }
    ensures err { OnErr result (Extends out.old.items out.new.items) }
{
    for piece in pieces {
        put_piece(out, *piece)?;
    }
    Ok(())
}

/// Appends the words of the pieces, each after one space, and a newline. After want of memory a part of them may have been
/// appended.
#[inline(always)]
pub fn put_words(out: &mut Vec<u8>, pieces: &[Piece]) -> Result<(), OutOfMemory>
    ensures ok { OnOk result (out.new.items ≡ out.old.items ++ ended (flat_map words_in pieces.now)) }
    ensures err { OnErr result (Extends out.old.items out.new.items) }
{
    put_pieces(out, pieces)?;
    out.grow(b'\n')?;
    Ok(())
}
