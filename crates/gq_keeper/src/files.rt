//! A journal in a file.

ghost use Rattle.std.specs.Prelude.{◌≡◌, ◌≤◌, [], true, length, IfErr, IfOk};
ghost use Rattle.gq_keeper.specs.Notes.{seen_in, synced_in};

use crate::notes::Notes;
use crate::{Disk, Fault, Log};
use std::alloc::Global;
use std::fs::{OpenFile, OpenOptions};
use std::io::{Read, Write};
use std::rt::Files;
use std::{fs, io, mem};

/// Where a journal lies.
#[derive(Drop)]
pub struct Place {
    /// The path of its file.
    pub path: String,
    /// That of the file that takes its place.
    pub next: String,
    /// That of the folder of both.
    pub folder: String,
}

/// A journal in a file. It notes what the file is taken to hold: that the file holds it is argued at each call, and not proved.
#[derive(Drop)]
pub struct FileDisk<R: Files + Drop> {
    rt: R,
    place: Place,
    file: Option<R::File>,
    // what was read of the file as it was opened
    text: Vec<u8>,
    unread: bool,
    size: usize,
    notes: Notes,
    ghost size_is: { size ≡ length (seen_in notes.instants) },
    ghost text_is: { unread ≡ true → text.items ≡ seen_in notes.instants },
}

// The file for appending, at its end.
fn opened<R: Files>(rt: &R, path: &str, new: bool) -> io::Result<R::File> {
    let mut how = OpenOptions::new();
    how.read(true);
    how.append(true);
    how.create_new(new);
    how.open(rt, path)
}

// The file of a new journal, in the place of one that is left.
fn made<R: Files>(rt: &R, path: &str) -> io::Result<R::File> {
    let _ = fs::remove_file(rt, path);
    opened(rt, path, true)
}

// Makes sure of the names in the folder.
fn sync_folder<R: Files>(rt: &R, folder: &str) -> io::Result<()> {
    fs::open(rt, folder)?.sync_all()
}

// Writes a new file, makes sure of it, gives it the journal's name, and makes sure of that. Who may read the old one may read it.
fn replaced<R: Files>(rt: &R, place: &Place, bytes: &[u8]) -> io::Result<R::File> {
    let mut file = made(rt, place.next.as_str())?;
    if let Ok(old) = fs::metadata(rt, place.path.as_str()) {
        file.set_permissions(old.permissions())?;
    }
    file.write_all(bytes)?;
    file.sync_all()?;
    fs::rename(rt, place.next.as_str(), place.path.as_str())?;
    sync_folder(rt, place.folder.as_str())?;
    Ok(file)
}

impl<R: Files + Drop> FileDisk<R> {
    /// The journal that is there.
    pub fn open(alloc: Global, rt: R, place: Place) -> io::Result<FileDisk<R>> {
        let mut file = opened(&rt, place.path.as_str(), false)?;
        let mut text = Vec::new(alloc);
        file.read_to_end(&mut text)?;
        let mut notes = Notes::new();
        notes.is_opened(text.as_slice());
        let size = text.len();
        Ok(FileDisk {
            rt,
            place,
            file: Some(file),
            text,
            unread: true,
            size,
            notes,
        })
    }

    /// A journal that isn't there yet: the first call is to be `replace`. One that is there is refused.
    pub fn absent(alloc: Global, rt: R, place: Place) -> io::Result<FileDisk<R>> {
        match fs::symlink_metadata(&rt, place.path.as_str()) {
            Ok(_) => return Err(io::Error::from(io::ErrorKind::AlreadyExists)),
            Err(e) if e.kind() == io::ErrorKind::NotFound => {}
            Err(e) => return Err(e),
        }
        let mut notes = Notes::new();
        notes.is_opened(&[]);
        Ok(FileDisk {
            rt,
            place,
            file: None,
            text: Vec::new(alloc),
            unread: false,
            size: 0,
            notes,
        })
    }

    // Makes sure of what was written.
    fn sync_file(&self) -> Result<(), Fault>
        ensures fault { IfErr result (λ fault. fault ≡ Fault.JournalWrite) }
    {
        let Some(file) = &self.file else {
            return Err(Fault::JournalWrite);
        };
        if file.sync_all().is_err() {
            return Err(Fault::JournalWrite);
        }
        Ok(())
    }
}

impl<R: Files + Drop> Log for FileDisk<R> {
    ghost use Rattle.gq_keeper.specs.Instants.{LeftSince, only_now};

    ghost seen = { λ d. seen_in d.notes.instants };

    ghost synced = { λ d. synced_in d.notes.instants };

    ghost instant = { λ d. length d.notes.instants };

    ghost left_since = { λ d. LeftSince d.notes.instants };

    ghost only_now = { λ d left now. only_now d.notes.instants left now };

    fn size(&self) -> usize {
        self.size
    }

    fn append(&mut self, bytes: &[u8]) -> Result<(), Fault> {
        let Some(size) = self.size.checked_add(bytes.len()) else {
            return Err(Fault::JournalWrite);
        };
        self.unread = false;
        self.size = size;
        self.notes.appends(bytes);
        let Some(file) = &mut self.file else {
            return Err(Fault::JournalWrite);
        };
        if file.write_all(bytes).is_err() {
            return Err(Fault::JournalWrite);
        }
        Ok(())
    }

    fn sync(&mut self) -> Result<(), Fault> {
        self.sync_file()?;
        self.notes.makes_sure();
        Ok(())
    }
}

impl<R: Files + Drop> Disk for FileDisk<R> {
    fn read(&mut self, alloc: Global) -> Result<Vec<u8>, Fault> {
        if !self.unread {
            return Err(Fault::JournalRead);
        }
        self.sync_file()?;
        if sync_folder(&self.rt, self.place.folder.as_str()).is_err() {
            return Err(Fault::JournalWrite);
        }
        self.notes.makes_sure();
        self.unread = false;
        Ok(mem::replace(&mut self.text, Vec::new(alloc)))
    }

    fn cut(&mut self, len: usize) -> Result<(), Fault> {
        self.unread = false;
        self.notes.may_be_cut(len);
        let Some(file) = &self.file else {
            return Err(Fault::JournalWrite);
        };
        if file.set_len(len as u64).is_err() {
            return Err(Fault::JournalWrite);
        }
        self.size = len;
        self.notes.is_cut(len);
        Ok(())
    }

    fn replace(&mut self, bytes: &[u8]) -> Result<(), Fault> {
        self.unread = false;
        self.notes.may_be_replaced(bytes);
        let Ok(file) = replaced(&self.rt, &self.place, bytes) else {
            return Err(Fault::JournalWrite);
        };
        self.file = Some(file);
        self.size = bytes.len();
        self.notes.is_replaced(bytes);
        Ok(())
    }
}
