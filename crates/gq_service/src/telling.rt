//! Who tells what an operator wants to know of a node while it takes lines.

use crate::console::Console;
use crate::served::Served;
use gq_chunks::{Damage, Sweep};
use gq_grid::MOST_SERVERS;
use gq_keeper::Watch;
use gq_machine::NodeMachine;
use gq_wire::LINE_FORM;
use std::alloc::Global;

// Once so many contents more came it is told how many.
const CONTENTS: u64 = 10_000;

// So many turns are passed over behind one at which damage was told.
const TURNS_PASSED: u32 = 16;

/// Watches the node of this number. It tells once that the server has all files, where it lacked some. It tells of how many tenants chunks are lacked, where some are: at first, each time
/// this changes, and each time so many contents came. And each time another node tells that
/// it speaks another form of lines than it told last, where that is not this program's. It has segments of the shelf removed in which no chunk lies: all facts are synced
/// each time that it looks. Where that fails it tells it once, until one is removed again. It tells of
/// contents that were found damaged or are mended, and when all were read.
#[derive(Drop)]
pub(crate) struct Telling<'x, C: Console> {
    console: &'x C,
    number: u16,
    lacks: bool,
    // of how many tenants chunks are lacked, and how many thousands of their contents were told
    tenants: usize,
    contents: u64,
    // for each place the form of lines that was seen last
    forms: [Option<u32>; MOST_SERVERS],
    sweep: Sweep,
    // whether it was told that a segment can't be removed
    is_told: bool,
    // what was told of damaged contents, and so many turns are passed over before it is looked at again
    damage: Damage,
    passed: u32,
}

impl<'x, C: Console> Telling<'x, C> {
    /// Of the node of this number, whose server lacks files or none, and chunks of so many tenants.
    pub(crate) fn new(
        alloc: Global,
        console: &'x C,
        number: u16,
        lacks: bool,
        chunks: (usize, u64),
    ) -> Telling<'x, C> {
        let (tenants, contents) = chunks;
        if tenants > 0 {
            console.tell_lacking_chunks(number, tenants, contents);
        }
        Telling {
            console,
            number,
            lacks,
            tenants,
            contents: contents / CONTENTS,
            forms: [None; MOST_SERVERS],
            sweep: Sweep::new(alloc),
            is_told: false,
            damage: Damage {
                found: 0,
                mended: 0,
                rounds: 0,
            },
            passed: 0,
        }
    }

    ghost use Rattle.std.specs.Prelude.{◌<◌};
    ghost use Rattle.gq_grid.specs.declared.TheConstants.{MOST_SERVERS};

    // Looks whether chunks of fewer tenants are lacked, or many more contents came.
    fn look_at_chunks(&mut self, chunks: (usize, u64)) {
        let (tenants, contents) = chunks;
        if tenants == self.tenants && contents / CONTENTS == self.contents {
            return;
        }
        self.tenants = tenants;
        self.contents = contents / CONTENTS;
        if tenants > 0 {
            self.console
                .tell_lacking_chunks(self.number, tenants, contents);
        } else {
            self.console.tell_all_chunks(self.number);
        }
    }

    // Looks whether more contents were found damaged or are mended, or all were read once more. It tells that at most once in some turns.
    fn look_at_damage(&mut self, damage: Damage) {
        if self.passed > 0 {
            self.passed -= 1;
            return;
        }
        if damage == self.damage {
            return;
        }
        if damage.found != self.damage.found || damage.mended != self.damage.mended {
            self.console
                .tell_damage(self.number, damage.found, damage.mended);
        }
        if damage.rounds != self.damage.rounds {
            self.console.tell_all_read(self.number);
        }
        self.damage = damage;
        self.passed = TURNS_PASSED;
    }

    // Looks whether the node at the place has told another form.
    fn look_at(&mut self, machine: &NodeMachine, place: usize)
        requires { place < MOST_SERVERS }
    {
        let form = machine.form_at(place);
        if form == self.forms[place] {
            return;
        }
        self.forms[place] = form;
        match form {
            Some(form) if form != LINE_FORM => {
                self.console
                    .tell_form(self.number, machine.node_at(place), form);
            }
            _ => {}
        }
    }

    // Has a part of the look for segments done.
    fn sweep<M: Served>(&mut self, machine: &M) {
        match machine.sweep(&mut self.sweep) {
            Ok(Some(_removed)) => self.is_told = false,
            Ok(None) => {}
            Err(_) => {
                if !self.is_told {
                    self.is_told = true;
                    self.console.tell_kept_segment(self.number);
                }
            }
        }
    }
}

impl<C: Console, M: Served> Watch<M> for Telling<'_, C> {
    fn took(&mut self, machine: &M) {
        self.sweep(machine);
        if self.tenants > 0 {
            self.look_at_chunks(machine.chunks_lacked());
        }
        self.look_at_damage(machine.damage());
        let machine = machine.registers();
        if self.lacks && !machine.lacks_some() {
            self.lacks = false;
            self.console.tell_all_files(self.number);
        }
        for place in 0..MOST_SERVERS {
            self.look_at(machine, place);
        }
    }
}
