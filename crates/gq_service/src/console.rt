//! The standard streams of a node's process.

use crate::fault::NodeFault;
use gq_wire::LINE_FORM;
use std::io::Eprint;
use std::os::fd::AsFd;

/// The standard streams of a node's process, and who watches the last of them.
pub trait Console {
    /// Whether all three are open. A file that is opened while one is closed would get its number, and what is written to the stream
    /// with it: so this is asked before any file is opened. A closed input is a fault of reading, another a fault of writing.
    fn check(&self) -> Result<(), NodeFault>;

    /// A wrong end of the journal was cut off at this byte.
    fn tell_cut(&self, at: usize);

    /// The node of this number takes lines. So many facts were read, and its server lacks so many files.
    fn tell_ready(&self, number: u16, rows: usize, cols: usize, facts: u64, lacked: usize);

    /// The server of the node of this number lacked files, and has all now.
    fn tell_all_files(&self, number: u16);

    /// The node of this number could not remove a segment of its shelf in which no chunk lies. It tries again.
    fn tell_kept_segment(&self, number: u16);

    /// The node of this number lacks chunks of so many tenants. So many of their contents came since it was started.
    fn tell_lacking_chunks(&self, number: u16, tenants: usize, contents: u64);

    /// The node of this number lacked chunks, and has all now.
    fn tell_all_chunks(&self, number: u16);

    /// The node of this number found so many contents on its shelf damaged since it was started, and so many of them are mended.
    fn tell_damage(&self, number: u16, found: u64, mended: u64);

    /// The node of this number has read all contents on its shelf once more, to see whether they can be.
    fn tell_all_read(&self, number: u16);

    /// To the node of this number the other one told that it speaks all forms of lines between nodes up to this one.
    fn tell_form(&self, number: u16, other: u16, form: u32);
}

/// The standard streams themselves, of a node whose journal has this path.
#[derive(Drop)]
pub struct Standard<'x, I: AsFd + Drop, O: AsFd + Drop, E: AsFd + Eprint + Drop> {
    input: I,
    output: O,
    errors: E,
    journal: &'x str,
}

// Whether the system knows the stream.
fn is_open(stream: &impl AsFd) -> bool {
    stream.as_fd().try_clone_to_owned().is_ok()
}

impl<'x, I: AsFd + Drop, O: AsFd + Drop, E: AsFd + Eprint + Drop> Standard<'x, I, O, E> {
    /// These streams, which may be closed.
    pub fn new(input: I, output: O, errors: E, journal: &'x str) -> Standard<'x, I, O, E> {
        Standard {
            input,
            output,
            errors,
            journal,
        }
    }
}

impl<I: AsFd + Drop, O: AsFd + Drop, E: AsFd + Eprint + Drop> Console for Standard<'_, I, O, E> {
    fn check(&self) -> Result<(), NodeFault> {
        if !is_open(&self.input) {
            return Err(NodeFault::Read);
        }
        if !is_open(&self.output) || !is_open(&self.errors) {
            return Err(NodeFault::Write);
        }
        Ok(())
    }

    fn tell_cut(&self, at: usize) {
        let journal = self.journal;
        let _ = eprintln!(self.errors; "gridfs: {journal}: cut at byte {at}");
    }

    fn tell_ready(&self, number: u16, rows: usize, cols: usize, facts: u64, lacked: usize) {
        if lacked == 0 {
            let _ = eprintln!(self.errors;
                "gridfs: node {number} of {rows} by {cols}: {facts} facts"
            );
        } else {
            let _ = eprintln!(self.errors;
                "gridfs: node {number} of {rows} by {cols}: {facts} facts, lacks {lacked} files"
            );
        }
    }

    fn tell_all_files(&self, number: u16) {
        let _ = eprintln!(self.errors; "gridfs: node {number}: has all files");
    }

    fn tell_kept_segment(&self, number: u16) {
        let journal = self.journal;
        let _ = eprintln!(self.errors;
            "gridfs: node {number}: {journal}.shelf: a segment without chunks can't be removed"
        );
    }

    fn tell_lacking_chunks(&self, number: u16, tenants: usize, contents: u64) {
        let _ = eprintln!(self.errors;
            "gridfs: node {number}: lacks chunks of {tenants} tenants; {contents} contents came"
        );
    }

    fn tell_all_chunks(&self, number: u16) {
        let _ = eprintln!(self.errors; "gridfs: node {number}: has all chunks");
    }

    fn tell_damage(&self, number: u16, found: u64, mended: u64) {
        let journal = self.journal;
        let _ = eprintln!(self.errors;
            "gridfs: node {number}: {journal}.shelf: {found} contents were damaged, {mended} of them are mended"
        );
    }

    fn tell_all_read(&self, number: u16) {
        let journal = self.journal;
        let _ = eprintln!(self.errors;
            "gridfs: node {number}: {journal}.shelf: all contents were read"
        );
    }

    fn tell_form(&self, number: u16, other: u16, form: u32) {
        let _ = eprintln!(self.errors;
            "gridfs: node {number}: node {other} speaks form {form} of lines, this one form {LINE_FORM}"
        );
    }
}
