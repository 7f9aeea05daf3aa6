//! A shelf in files: a folder, and a file of it for each segment.

ghost use Rattle.std.specs.Prelude.{◌≡◌, ◌≢◌, ◌+◌, ◌-◌, ◌<◌, ◌≤◌, ◌^◌, true, false, length, All, IfOk, IfErr, OnOk, OnErr};
ghost use Rattle.gq_shelf.specs.declared.fault.ShelfFault.TheVariants.{Full};
ghost use Rattle.gq_shelf.specs.declared.files.OpenFault.TheVariants.{There};
ghost use Rattle.gq_shelf.specs.Extents.{Describes, begins, ends, place_of};
ghost use Rattle.gq_shelf.specs.Notes.{none_noted, after_put, after_refusal, after_sync};

use crate::notes::Notes;
use crate::{Extent, Shelf, ShelfFault};
use bytes::Bytes;
use gq_memory::{GrowCopies, GrowVec, OutOfMemory, bytes_of, filled};
use gq_sum::sum_of;
use std::alloc::Global;
use std::fs::{DirBuilder, File, OpenFile, OpenOptions};
use std::io::{Read, Write};
use std::os::unix::fs::{DirBuilderExt, FileExt, OpenOptionsExt};
use std::rt::Files;
use std::{fs, io, str};

// A segment of so many bytes or more does not grow.
const SEGMENT_BYTES: u64 = 268_435_456;

// A segment of so many bytes or more is left where the system has no space for one content more: it can be removed, once nothing on it is wanted.
const LEFT_BYTES: u64 = 16_777_216;

// So many bytes of a folder are read at once.
const BLOCK_BYTES: usize = 65_536;

/// Where a shelf lies.
#[derive(Drop)]
pub struct ShelfPlace {
    /// The path of its folder.
    pub folder: String,
    /// That of the folder in which this one is.
    pub above: String,
}

/// Why a shelf is not opened.
#[derive(Debug, Drop)]
pub enum OpenFault {
    /// Memory was wanting.
    Memory,
    /// The folder could not be read, or its names could not be made sure of.
    Read,
    /// There are segments, and a shelf was to be begun.
    There,
}

/// A shelf in files. A segment is begun by the first content that is put after a start, or once the last one is long; none is appended to
/// that an earlier start began. After a write or a sync that failed nothing is known of the bytes behind the last sync, and a later sync
/// would not tell: so nothing more is put. It is otherwise where the system has no space for a write: what was written before is there.
#[derive(Drop)]
pub struct FileShelf<R: Files<File = File> + Drop> {
    alloc: Global,
    rt: R,
    place: ShelfPlace,
    // the segment of the greatest number, and where the next content begins there
    segment: u32,
    at: u64,
    // that segment, where this start began it
    growing: Option<File>,
    // whether a byte was written since the last sync
    written: bool,
    is_broken: bool,
    notes: Notes,
}

// The number that the name of a segment says.
fn number_of(name: &[u8]) -> Option<u32> {
    if name.len() != 10 {
        return None;
    }
    let mut number: u64 = 0;
    for digit in name {
        if *digit < b'0' || *digit > b'9' {
            return None;
        }
        number = number
            .saturating_mul(10)
            .saturating_add(u64::from(*digit - b'0'));
    }
    u32::try_from(number).ok()
}

// Those of the digits of a name.
const UNITS: [u32; 10] = [
    1_000_000_000,
    100_000_000,
    10_000_000,
    1_000_000,
    100_000,
    10_000,
    1_000,
    100,
    10,
    1,
];

// The path of the segment of this number.
fn path_of(alloc: Global, folder: &str, number: u32) -> Result<Vec<u8>, OutOfMemory> {
    let mut path = Vec::new(alloc);
    path.grow_by(folder.as_bytes())?;
    path.grow(b'/')?;
    for unit in UNITS {
        path.grow(b'0' + (number / unit % 10) as u8)?;
    }
    Ok(path)
}

// The path, which is a text: the folder's is one, and a segment's name has digits.
fn text_of(path: &[u8]) -> Result<&str, ShelfFault> {
    match str::from_utf8(path) {
        Ok(text) => Ok(text),
        Err(_) => Err(ShelfFault::Write),
    }
}

// Makes sure of the names in the folder.
fn sync_folder<R: Files>(rt: &R, folder: &str) -> io::Result<()> {
    fs::open(rt, folder)?.sync_all()
}

// The names in the folder, each with a 0 behind it; none where there is no folder.
fn names_in<R: Files>(alloc: Global, rt: &R, folder: &str) -> io::Result<Vec<u8>> {
    let mut names = Vec::new(alloc);
    let mut dir = match rt.open_dir(folder) {
        Ok(dir) => dir,
        Err(error) if error.kind() == io::ErrorKind::NotFound => return Ok(names),
        Err(error) => return Err(error),
    };
    // A read into little room is a fault of the system, so each has a block.
    let mut block = Vec::new(alloc);
    block.resize(BLOCK_BYTES, 0u8)?;
    for _ in 0..u64::MAX {
        let count = dir.read(block.as_mut_slice())?;
        if count == 0 {
            break;
        }
        names.extend_from_slice(&block[..count])?;
    }
    Ok(names)
}

// The greatest number of the segments that are there, 0 where there is none, or no folder. A crash leaves their names.
fn greatest_in<R: Files>(alloc: Global, rt: &R, folder: &str) -> io::Result<u32> {
    let names = names_in(alloc, rt, folder)?;
    let mut greatest = 0;
    for name in names.as_slice().split(|byte| *byte == 0) {
        if let Some(number) = number_of(name) {
            if number > greatest {
                greatest = number;
            }
        }
    }
    if greatest != 0 {
        sync_folder(rt, folder)?;
    }
    Ok(greatest)
}

// The numbers among the names that are below this one.
fn numbers_below(alloc: Global, names: &[u8], below: u32) -> Result<Vec<u32>, OutOfMemory>
    ensures { IfOk result (λ found. All (λ number. number < below) found.items) }
{
    let mut found = Vec::new(alloc);
    for name in names.split(|byte| *byte == 0) {
        if let Some(number) = number_of(name) {
            if number < below {
                found.grow(number)?;
            }
        }
    }
    Ok(found)
}

// The system wanted memory. That is told as any want of memory: by a growth that is refused.
fn no_memory(alloc: Global) -> ShelfFault {
    match filled(alloc, 0u8, usize::MAX) {
        Ok(_bytes) => ShelfFault::Read,
        Err(refused) => ShelfFault::Memory(refused),
    }
}

// Why the folder could not be read.
fn why_unlisted(alloc: Global, error: &io::Error) -> ShelfFault {
    match error.kind() {
        io::ErrorKind::OutOfMemory => no_memory(alloc),
        _ => ShelfFault::Read,
    }
}

// Why something could not be written or begun.
fn why_unwritten(alloc: Global, error: &io::Error) -> ShelfFault {
    match error.kind() {
        io::ErrorKind::StorageFull | io::ErrorKind::QuotaExceeded | io::ErrorKind::FileTooLarge =>
            ShelfFault::Full,
        io::ErrorKind::OutOfMemory => no_memory(alloc),
        _ => ShelfFault::Write,
    }
}

// Why the segment could not be opened.
fn why_unopened(alloc: Global, error: &io::Error, segment: u32) -> ShelfFault {
    match error.kind() {
        io::ErrorKind::NotFound => ShelfFault::Damaged(segment),
        io::ErrorKind::OutOfMemory => no_memory(alloc),
        _ => ShelfFault::Read,
    }
}

// Why the bytes could not be read of a segment that was opened: it ends before them, or the disk has lost them.
fn why_unread(alloc: Global, error: &io::Error, segment: u32) -> ShelfFault {
    match error.kind() {
        io::ErrorKind::OutOfMemory => no_memory(alloc),
        _ => ShelfFault::Damaged(segment),
    }
}

impl<R: Files<File = File> + Drop> FileShelf<R> {
    /// The shelf that is there, or one that is to be begun by its first content. Where it is to be begun no segment may be there. The first content
    /// is put into a new segment. No other process may have the folder open: who calls has to see to that.
    pub fn open(
        alloc: Global,
        rt: R,
        place: ShelfPlace,
        is_new: bool,
    ) -> Result<FileShelf<R>, OpenFault>
        ensures is_full { IfOk result (λ shelf. shelf.at ≡ 2 ^ 64 - 1) }
        ensures none_noted { IfOk result (λ shelf. shelf.notes.noted ≡ none_noted) }
        ensures there { IfErr result (λ fault. fault ≡ There → is_new ≡ true) }
    {
        let segment = match greatest_in(alloc, &rt, place.folder.as_str()) {
            Ok(segment) => segment,
            Err(error) if error.kind() == io::ErrorKind::OutOfMemory => {
                return Err(OpenFault::Memory);
            }
            Err(_) => return Err(OpenFault::Read),
        };
        if is_new && segment != 0 {
            return Err(OpenFault::There);
        }
        Ok(FileShelf {
            alloc,
            rt,
            place,
            segment,
            at: u64::MAX,
            growing: None,
            written: false,
            is_broken: false,
            notes: Notes::new(),
        })
    }

    // Whether more may be put and made sure of.
    fn check_whole(&self) -> Result<(), ShelfFault>
        ensures whole { OnOk result (self.now.is_broken ≡ false) }
        ensures never_full { IfErr result (λ fault. fault ≢ Full) }
    {
        if self.is_broken {
            return Err(ShelfFault::Write);
        }
        Ok(())
    }

    // A call was refused: nothing more is put or made sure of.
    fn breaks(&mut self)
        ensures notes { self.new.notes.noted ≡ after_refusal self.old.notes.noted }
        ensures segment { self.new.segment ≡ self.old.segment }
        ensures at { self.new.at ≡ self.old.at }
        ensures broken { self.new.is_broken ≡ true }
    {
        self.is_broken = true;
        self.notes.is_refused()
    }

    // Makes sure of the names in the folder. Nothing is known of them where that fails, for whatever cause.
    fn sync_names(&self, folder: &str) -> Result<(), ShelfFault> {
        match sync_folder(&self.rt, folder) {
            Ok(()) => Ok(()),
            Err(error) if error.kind() == io::ErrorKind::OutOfMemory => Err(no_memory(self.alloc)),
            Err(_) => Err(ShelfFault::Write),
        }
    }

    // Makes the folder where there is none. A crash leaves its name, also where an earlier start made it and ended before its sync.
    fn make_folder(&self) -> Result<(), ShelfFault> {
        let mut how = DirBuilder::new();
        how.mode(0o700);
        match how.create(&self.rt, self.place.folder.as_str()) {
            Ok(()) => {}
            Err(error) if error.kind() == io::ErrorKind::AlreadyExists => {}
            Err(error) => return Err(why_unwritten(self.alloc, &error)),
        }
        self.sync_names(self.place.above.as_str())
    }

    // A new file of this path.
    fn made(&self, path: &str) -> Result<File, ShelfFault> {
        let mut how = OpenOptions::new();
        how.append(true);
        how.create_new(true);
        how.mode(0o600);
        match how.open(&self.rt, path) {
            Ok(file) => Ok(file),
            Err(error) => Err(why_unwritten(self.alloc, &error)),
        }
    }

    // A new segment of this number. A crash leaves its name, so no start uses the number again.
    fn new_segment(&self, number: u32) -> Result<File, ShelfFault> {
        let path = path_of(self.alloc, self.place.folder.as_str(), number)?;
        self.make_folder()?;
        let file = self.made(text_of(path.as_slice())?)?;
        self.sync_names(self.place.folder.as_str())?;
        Ok(file)
    }

    // Begins the segment behind the one of the greatest number, once it was made sure of that.
    fn begin(&mut self) -> Result<(), ShelfFault>
        ensures notes { self.new.notes ≡ self.old.notes }
        ensures next { OnOk result (self.new.segment ≡ self.old.segment + 1) }
        ensures at { OnOk result (self.new.at ≡ 0) }
        ensures same { OnErr result (place_of self.new.segment self.new.at ≡ place_of self.old.segment self.old.at) }
        ensures broken { self.new.is_broken ≡ self.old.is_broken }
        ensures no_bytes { OnOk result (self.new.written ≡ false) }
    {
        self.sync_bytes()?;
        let Some(number) = self.segment.checked_add(1) else {
            return Err(ShelfFault::Write);
        };
        let file = self.new_segment(number)?;
        self.segment = number;
        self.at = 0;
        self.growing = Some(file);
        Ok(())
    }

    // Cuts the growing segment off at the shelf's end, behind all that was put.
    fn cut_file(&self, at: u64) -> bool
        requires { at ≡ self.now.at }
    {
        match &self.growing {
            Some(file) => file.set_len(at).is_ok(),
            None => false,
        }
    }

    // What was written of a content for which there was no space is cut off, and takes no space then. Where that fails, or the segment is long or can't be longer, the
    // next content begins another one.
    fn cut(&mut self, error: &io::Error)
        ensures notes { self.new.notes ≡ self.old.notes }
        ensures segment { self.new.segment ≡ self.old.segment }
        ensures at { self.old.at ≤ self.new.at }
        ensures broken { self.new.is_broken ≡ self.old.is_broken }
        ensures bytes { self.new.written ≡ self.old.written }
    {
        let at = self.at;
        let is_cut = self.cut_file(at);
        if !is_cut || at >= LEFT_BYTES || error.kind() == io::ErrorKind::FileTooLarge {
            self.at = u64::MAX;
        }
    }

    // Writes the bytes behind all others.
    fn write(&mut self, bytes: &[u8]) -> Result<(), ShelfFault>
        ensures notes { self.new.notes ≡ self.old.notes }
        ensures segment { self.new.segment ≡ self.old.segment }
        ensures at { OnOk result (self.new.at ≡ self.old.at) }
        ensures rises { self.old.at ≤ self.new.at }
        ensures broken { self.new.is_broken ≡ self.old.is_broken }
        ensures bytes { self.new.written ≡ true }
    {
        self.written = true;
        let Some(file) = &mut self.growing else {
            return Err(ShelfFault::Write);
        };
        match file.write_all(bytes) {
            Ok(()) => Ok(()),
            Err(error) => {
                self.cut(&error);
                Err(why_unwritten(self.alloc, &error))
            }
        }
    }

    // Puts the bytes behind all others, in a new segment where the last one is long.
    fn put(&mut self, bytes: &[u8]) -> Result<Extent, ShelfFault>
        requires { length bytes.now < 2 ^ 32 }
        ensures notes { self.new.notes ≡ self.old.notes }
        ensures describes { IfOk result (λ extent. Describes extent bytes.now) }
        ensures apart { IfOk result (λ extent. place_of self.old.segment self.old.at ≤ begins extent) }
        ensures before_end { IfOk result (λ extent. ends extent ≡ place_of self.new.segment self.new.at) }
        ensures end_rises { place_of self.old.segment self.old.at ≤ place_of self.new.segment self.new.at }
        ensures broken { self.new.is_broken ≡ self.old.is_broken }
        ensures bytes { OnOk result (self.new.written ≡ true) }
        ensures whole { OnOk result (self.old.is_broken ≡ false) }
        ensures full { IfErr result (λ fault. fault ≡ Full → self.old.is_broken ≡ false) }
    {
        self.check_whole()?;
        if self.at >= SEGMENT_BYTES {
            self.begin()?;
        }
        self.write(bytes)?;
        let at = self.at;
        self.at = at + bytes.len() as u64;
        Ok(Extent {
            segment: self.segment,
            at,
            len: bytes.len() as u32,
            sum: sum_of(at, bytes),
        })
    }

    // Makes sure of the bytes. What is before the last segment was made sure of as that was begun.
    fn sync_bytes(&mut self) -> Result<(), ShelfFault>
        ensures notes { self.new.notes ≡ self.old.notes }
        ensures segment { self.new.segment ≡ self.old.segment }
        ensures at { self.new.at ≡ self.old.at }
        ensures broken { self.new.is_broken ≡ self.old.is_broken }
        ensures no_bytes { OnOk result (self.new.written ≡ false) }
        ensures whole { OnOk result (self.old.is_broken ≡ false) }
        ensures never_full { IfErr result (λ fault. fault ≢ Full) }
    {
        self.check_whole()?;
        if self.written {
            self.sync_growing()?;
            self.written = false;
        }
        Ok(())
    }

    // Makes sure of the bytes of the last segment.
    fn sync_growing(&self) -> Result<(), ShelfFault>
        ensures { IfErr result (λ fault. fault ≢ Full) }
    {
        let Some(file) = &self.growing else {
            return Err(ShelfFault::Write);
        };
        if file.sync_data().is_err() {
            return Err(ShelfFault::Write);
        }
        Ok(())
    }

    // Notes that the content was put: the next sync has bytes to make sure of.
    fn note_put(&mut self, extent: &Extent, bytes: &[u8])
        requires { self.now.written ≡ true }
        ensures notes { self.new.notes.noted ≡ after_put extent.now bytes.now self.old.notes.noted }
        ensures segment { self.new.segment ≡ self.old.segment }
        ensures at { self.new.at ≡ self.old.at }
        ensures broken { self.new.is_broken ≡ self.old.is_broken }
    {
        self.notes.puts(extent, bytes)
    }

    // Notes that it was made sure of all: no bytes are left.
    fn note_sync(&mut self)
        requires { self.now.written ≡ false }
        ensures notes { self.new.notes.noted ≡ after_sync self.old.notes.noted }
        ensures segment { self.new.segment ≡ self.old.segment }
        ensures at { self.new.at ≡ self.old.at }
        ensures broken { self.new.is_broken ≡ self.old.is_broken }
    {
        self.notes.makes_sure()
    }

    // The bytes at the extent, whatever their sum.
    fn bytes_at(&self, extent: &Extent) -> Result<Vec<u8>, ShelfFault>
        ensures { IfOk result (λ bytes. length bytes.items ≡ extent.now.len) }
    {
        let path = path_of(self.alloc, self.place.folder.as_str(), extent.segment)?;
        let file = match fs::open(&self.rt, text_of(path.as_slice())?) {
            Ok(file) => file,
            Err(error) => return Err(why_unopened(self.alloc, &error, extent.segment)),
        };
        let mut bytes = filled(self.alloc, 0, extent.len as usize)?;
        match file.read_exact_at(bytes.as_mut_slice(), extent.at) {
            Ok(()) => Ok(bytes),
            Err(error) => Err(why_unread(self.alloc, &error, extent.segment)),
        }
    }

    // The content there.
    fn content(&self, extent: &Extent) -> Result<Bytes, ShelfFault>
        ensures { IfOk result (λ bytes. Describes extent.now bytes) }
    {
        let bytes = self.bytes_at(extent)?;
        if !extent.describes(bytes.as_slice()) {
            return Err(ShelfFault::Damaged(extent.segment));
        }
        Ok(bytes_of(bytes)?)
    }

    // Removes the segment, and says whether it was there.
    fn remove_file(&self, segment: u32) -> Result<bool, ShelfFault> {
        let path = path_of(self.alloc, self.place.folder.as_str(), segment)?;
        match fs::remove_file(&self.rt, text_of(path.as_slice())?) {
            Ok(()) => Ok(true),
            Err(error) if error.kind() == io::ErrorKind::NotFound => Ok(false),
            Err(_) => Err(ShelfFault::Write),
        }
    }
}

impl<R: Files<File = File> + Drop> Shelf for FileShelf<R> {
    ghost noted = { λ s. s.notes.noted };

    ghost end = { λ s. place_of s.segment s.at };

    ghost is_broken = { λ s. s.is_broken };

    fn append(&mut self, bytes: &[u8]) -> Result<Extent, ShelfFault> {
        match self.put(bytes) {
            Ok(extent) => {
                self.note_put(&extent, bytes);
                Ok(extent)
            }
            Err(ShelfFault::Full) => {
                self.notes.is_refused();
                Err(ShelfFault::Full)
            }
            Err(fault) => {
                self.breaks();
                Err(fault)
            }
        }
    }

    fn sync(&mut self) -> Result<(), ShelfFault> {
        match self.sync_bytes() {
            Ok(()) => {
                self.note_sync();
                Ok(())
            }
            Err(fault) => {
                self.breaks();
                Err(fault)
            }
        }
    }

    fn read(&mut self, extent: &Extent) -> Result<Bytes, ShelfFault> {
        match self.content(extent) {
            Ok(bytes) => {
                self.notes.reads(extent, bytes.as_slice());
                Ok(bytes)
            }
            Err(fault) => {
                self.notes.fails(extent, &fault);
                Err(fault)
            }
        }
    }

    fn vouch(&mut self, extent: &Extent, bytes: &[u8]) -> bool {
        let is_described = extent.describes(bytes);
        if is_described {
            self.notes.reads(extent, bytes);
        }
        is_described
    }

    fn segments(&self) -> Result<Vec<u32>, ShelfFault> {
        match names_in(self.alloc, &self.rt, self.place.folder.as_str()) {
            Ok(names) => Ok(numbers_below(self.alloc, names.as_slice(), self.segment)?),
            Err(error) => Err(why_unlisted(self.alloc, &error)),
        }
    }

    fn length(&self, segment: u32) -> Result<u64, ShelfFault> {
        let path = path_of(self.alloc, self.place.folder.as_str(), segment)?;
        match fs::metadata(&self.rt, text_of(path.as_slice())?) {
            Ok(found) => Ok(found.len()),
            Err(error) => Err(why_unlisted(self.alloc, &error)),
        }
    }

    fn remove(&self, segment: u32) -> Result<bool, ShelfFault> {
        if segment >= self.segment {
            return Ok(false);
        }
        self.remove_file(segment)
    }
}
