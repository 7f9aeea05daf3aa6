//! Which files of a tenant a server lacks.

ghost use Rattle.std.specs.Prelude.{◌≡◌, ℕ, ◌<◌, ◌≤◌, ◌&&◌, [], true, false, not, length, replicate, slice_index_or, slice_set, IfOk};
ghost use Rattle.std.specs.List.{list_all};
ghost use Rattle.gq_tag.specs.declared.TheConstants.{MOST_FILES};
ghost use Rattle.gq_tag.specs.Tag.{File, is_file};
ghost use Rattle.gq_desk.specs.declared.limits.TheConstants.{MOST_FILE_BLOCKS};
ghost use Rattle.gq_desk.specs.Volumes.{is_sized};
ghost use Rattle.gq_node.specs.Lacks.{AllGiven, AllWhole, all_lost, marks_for};

use gq_desk::VolumeRow;
use gq_memory::{OutOfMemory, filled, room_for};
use gq_tag::MOST_FILES;
use std::alloc::Global;
use std::marker::Model;

/// Of a volume that a server lost, whether it was given the file of each number since.
#[derive(Drop)]
pub(crate) struct GivenFiles {
    files: Vec<bool>,
    // each file before this one was given
    next: u32,
}

impl Model for GivenFiles {
    ghost use Rattle.std.specs.Prelude.{List, Bool};
    ghost use Rattle.gq_node.specs.Lacks.{AllGiven};

    ghost Value = { List Bool };

    ghost view = { λ g. g.files.items };

    ghost invariant = { λ g. AllGiven g.files.items g.next };
}

// The first file from that one on that was not given; each before that one was.
fn next_from(files: &[bool], first: u32) -> u32
    requires { AllGiven files.now first }
    ensures { AllGiven files.now result }
{
    for place in first..MOST_FILES {
        if place as usize >= files.len() || !files[place as usize] {
            return place;
        }
    }
    MOST_FILES
}

impl GivenFiles {
    // No file of so many was given.
    fn none(alloc: Global, files: u32) -> Result<GivenFiles, OutOfMemory>
        ensures { IfOk result (λ given. given ≡ replicate files false) }
    {
        Ok(GivenFiles {
            files: filled(alloc, false, files as usize)?,
            next: 0,
        })
    }

    // Before which file each was given.
    fn next(&self) -> u32
        ensures { AllGiven self.now result }
    {
        self.next
    }

    // Each file was given, where this says so.
    fn is_whole(&self) -> bool
        ensures { result ≡ true → AllGiven self.now (length self.now) }
    {
        self.next as usize >= self.files.len()
    }

    // The file was given.
    fn give(&mut self, file: u32)
        requires { file < length self.old }
        ensures { self.new ≡ slice_set self.old file true }
    {
        self.files[file as usize] = true;
        self.next = next_from(self.files.as_slice(), self.next);
    }
}

// The first volume from that one on that was not given whole; each before that one was.
fn whole_from(volumes: &[GivenFiles], first: usize) -> usize
    requires { AllWhole volumes.now first }
    ensures { AllWhole volumes.now result }
{
    for volume in first..volumes.len() {
        if !volumes[volume].is_whole() {
            return volume;
        }
    }
    volumes.len()
}

// How many files are marked of the volume: its own, or as many as it may have where it is not open.
fn marks_for(volumes: &[VolumeRow], volume: usize) -> u32
    requires { list_all (is_sized MOST_FILE_BLOCKS) volumes.now ≡ true }
    ensures value { result ≡ marks_for volumes.now volume }
    ensures few { result ≤ MOST_FILES }
{
    if volume < volumes.len() {
        volumes[volume].files
    } else {
        MOST_FILES
    }
}

/// The volumes of a tenant that a server lost, which are its first ones, and what it was given of them since.
#[derive(Drop)]
pub(crate) struct Lacks {
    volumes: Vec<GivenFiles>,
    // each volume before this one was given whole
    next: usize,
}

impl Model for Lacks {
    ghost use Rattle.gq_node.specs.Lacks.{Given, HasRoom, AllWhole};

    ghost Value = { Given };

    ghost view = { λ l. l.volumes.items };

    ghost invariant = { λ l. HasRoom l.volumes.items × AllWhole l.volumes.items l.next };
}

impl Lacks {
    ghost use Rattle.gq_node.specs.Lacks.{HasRoom, lacks_in};

    // No volume was lost.
    pub(crate) fn nothing(alloc: Global) -> Lacks
        ensures { result ≡ [] }
    {
        Lacks {
            volumes: Vec::new(alloc),
            next: 0,
        }
    }

    // So many volumes were lost, of which these are open, and no file was given.
    pub(crate) fn all(alloc: Global, lost: usize, rows: &[VolumeRow]) -> Result<Lacks, OutOfMemory>
        requires { list_all (is_sized MOST_FILE_BLOCKS) rows.now ≡ true }
        ensures { IfOk result (λ lacks. lacks ≡ all_lost rows.now lost) }
    {
        let mut volumes = room_for(alloc, lost)?;
        for volume in 0..lost {
            volumes.push_reserved(GivenFiles::none(alloc, marks_for(rows, volume))?);
        }
        Ok(Lacks { volumes, next: 0 })
    }

    // There are no more marks for the files of a volume than it may have files.
    pub(crate) fn room(&self)
        ensures { HasRoom self.now }
    {
        let _volumes = &self.volumes;
    }

    // Whether the server lacks the file of the volume.
    pub(crate) fn lacks(&self, volume: u32, file: u32) -> bool
        ensures { result ≡ lacks_in self.now (record { volume = volume; place = file }) }
    {
        let volume = volume as usize;
        if volume >= self.volumes.len() {
            return false;
        }
        let files = &self.volumes[volume].files;
        if file as usize >= files.len() {
            return true;
        }
        !files[file as usize]
    }

    // A volume before which the server lacks none of the files that are marked, and where it was given them in their order the first of which
    // it lacks one.
    pub(crate) fn first(&self) -> usize
        ensures { AllWhole self.now result }
    {
        self.next
    }

    // A file of the volume before which the server lacks none, and where it was given them in their order the first that it lacks.
    pub(crate) fn next(&self, volume: u32) -> u32
        ensures { (place : ℕ) → place < result → lacks_in self.now (record { volume = volume; place = place }) ≡ false }
    {
        let volume = volume as usize;
        if volume >= self.volumes.len() {
            return MOST_FILES;
        }
        self.volumes[volume].next()
    }

    // The server was given the file.
    pub(crate) fn give(&mut self, volume: u32, file: u32)
        requires { volume < length self.old → file < length (slice_index_or self.old volume []) }
        ensures lacks { (f : File) → lacks_in self.new f ≡ lacks_in self.old f && not (is_file (record { volume = volume; place = file }) f) }
        ensures volumes { length self.new ≡ length self.old }
        ensures marks { (v : ℕ) → length (slice_index_or self.new v []) ≡ length (slice_index_or self.old v []) }
    {
        let volume = volume as usize;
        if volume < self.volumes.len() {
            self.volumes[volume].give(file);
            self.next = whole_from(self.volumes.as_slice(), self.next);
        }
    }
}
