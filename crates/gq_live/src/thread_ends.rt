//! What the threads of a live run gave back, put together.
ghost use Rattle.std.specs.Prelude.{◌≡◌, ◌≢◌, ℕ, ◌+◌, ◌≤◌, ◌⊎◌, [], ◌∷◌, ◌++◌, true, All, Ok, IfOk, IfErr, OnOk, MatchOption, option_to_list, vec_len};
ghost use Rattle.std.specs.List.{filter_map};
ghost use Rattle.std.specs.Option.{ForSome};
ghost use Rattle.std.specs.Result.{result_err};
ghost use Rattle.gq_session.specs.Attending.{GivesUpWhereStuck};
ghost use Rattle.gq_session.specs.Faults.{NoGate};
ghost use Rattle.gq_session.specs.declared.records.LiveFault.TheVariants as FaultIs;
ghost use Rattle.gq_live.specs.Faults.{number_of, IsLeastOf, fault_in, AddsOrTells, IsToldOf};
ghost use Rattle.gq_live.specs.Runs.{AllLawful, AllAsked};

use crate::attending::{Attendance, SessionEnd};
use gq_cell::CellEntry;
use gq_memory::RoomInVec;
use gq_session::{Entries, Gate, Journal, Lines, LiveFault};
use std::alloc::Global;
use std::marker::{Model, PhantomData};

/// What a server's thread gives back: its number with its journal, which is lawful.
#[derive(Drop)]
pub(crate) struct CellRecord {
    pub server: u8,
    pub journal: Vec<CellEntry>,
}

impl Model for CellRecord {
    ghost use Rattle.std.specs.Prelude.{ℕ, List};
    ghost use Rattle.gq_cell.specs.declared.letter.CellEntry.{CellEntry};
    ghost use Rattle.gq_cell.specs.Journal.{IsLawful};

    ghost Value = { ℕ × List CellEntry };

    ghost view = { λ r. (r.server, r.journal.items) };

    ghost invariant = { λ r. IsLawful r.server r.journal.items };
}

/// How a thread ended that calls the gate: its fault is not `Gate` where the gate never gives up.
#[derive(Drop)]
pub(crate) struct GatedEnd<T: Drop, G: Gate> {
    pub result: Result<T, LiveFault>,
    gate: PhantomData<G>,
    pub ghost open: { G.never ≡ true → NoGate result },
}

impl<T: Drop, G: Gate> GatedEnd<T, G> {
    pub(crate) fn of(given: Result<T, LiveFault>) -> GatedEnd<T, G>
        requires { G.never ≡ true → NoGate given }
    {
        GatedEnd {
            result: given,
            gate: PhantomData,
        }
    }
}

// The number of the fault.
fn number(fault: &LiveFault) -> u8
    ensures { result ≡ number_of fault.now }
{
    match fault {
        LiveFault::Memory(_) => 1,
        LiveFault::Thread => 2,
        LiveFault::Gate => 3,
        LiveFault::Stamps => 4,
        LiveFault::Volume(_) => 5,
        LiveFault::Letter => 6,
    }
}

// The fault of the lesser number.
fn lesser(one: LiveFault, two: LiveFault) -> LiveFault
    ensures met { (result ≡ one) ⊎ (result ≡ two) }
    ensures one { number_of result ≤ number_of one }
    ensures two { number_of result ≤ number_of two }
{
    if number(&one) < number(&two) {
        one
    } else {
        two
    }
}

// Of the fault that is told so far, if there is one, and one more, that of the lesser number.
pub(crate) fn least(one: Option<LiveFault>, two: LiveFault) -> LiveFault
    ensures least { IsLeastOf (option_to_list one ++ two ∷ []) result }
    ensures gate { ForSome one (λ fault. fault ≢ FaultIs.Gate) → two ≢ FaultIs.Gate → result ≢ FaultIs.Gate }
{
    match one {
        Some(one) => lesser(one, two),
        None => two,
    }
}

// What is told, where this came after what is told so far.
fn told_after(fault: Option<LiveFault>, added: Result<(), LiveFault>) -> Option<LiveFault>
    ensures ok { OnOk added (result ≡ fault) }
    ensures least { IfErr added (λ met. MatchOption result ⊥ (IsLeastOf (option_to_list fault ++ met ∷ []))) }
    ensures gate { NoGate added → ForSome fault (λ fault. fault ≢ FaultIs.Gate) → ForSome result (λ fault. fault ≢ FaultIs.Gate) }
{
    match added {
        Ok(()) => fault,
        Err(met) => Some(least(fault, met)),
    }
}

// Both, unless there is a fault; then the one of the lesser number.
pub(crate) fn both_or_least<A: Drop, B: Drop>(
    one: Result<A, LiveFault>,
    two: Result<B, LiveFault>,
) -> Result<(A, B), LiveFault>
    ensures both { IfOk result (λ both. (one ≡ Ok both.0) × (two ≡ Ok both.1)) }
    ensures least { IfErr result (IsLeastOf (fault_in one ++ fault_in two)) }
    ensures gate { NoGate one → NoGate two → NoGate result }
{
    match one {
        Ok(one) => match two {
            Ok(two) => Ok((one, two)),
            Err(met) => Err(met),
        },
        Err(met) => match two {
            Ok(_two) => Err(met),
            Err(other) => Err(lesser(met, other)),
        },
    }
}

// Adds what a server's thread gave back, if it is the next server's.
fn add_journal(all: &mut Vec<Journal>, record: CellRecord) -> Result<(), LiveFault>
    requires { AllLawful all.old.items }
    ensures lawful { AllLawful all.new.items }
    ensures len { OnOk result (vec_len all.new ≡ vec_len all.old + 1) }
    ensures fault { IfErr result (λ fault. (fault ≡ LiveFault.Memory tt) ⊎ (fault ≡ LiveFault.Letter)) }
{
    let CellRecord { server, journal } = record;
    if server as usize != all.len() {
        return Err(LiveFault::Letter);
    }
    all.make_room(1)?;
    all.push_reserved(Journal { items: journal });
    Ok(())
}

// Adds what a server's thread gave back, if it met no fault.
fn add_server<G: Gate>(
    all: &mut Vec<Journal>,
    end: GatedEnd<CellRecord, G>,
) -> Result<(), LiveFault>
    requires { AllLawful all.old.items }
    ensures lawful { AllLawful all.new.items }
    ensures len { OnOk result (vec_len all.new ≡ vec_len all.old + 1) }
    ensures fault { AddsOrTells (result_err end.result) result }
    ensures gate { G.never ≡ true → NoGate result }
{
    let GatedEnd { result: given, .. } = end;
    match given {
        Ok(record) => add_journal(all, record),
        Err(met) => Err(met),
    }
}

// The journals, where each server's thread gave its own.
pub(crate) fn journals<G: Gate>(
    alloc: Global,
    ends: Vec<GatedEnd<CellRecord, G>>,
) -> Result<Vec<Journal>, LiveFault>
    ensures lawful { IfOk result (λ v. AllLawful v.items) }
    ensures told { IfErr result (IsToldOf (filter_map (λ end. result_err end.result) ends.items)) }
    ensures gate { G.never ≡ true → NoGate result }
{
    let mut all = Vec::new(alloc);
    let mut fault = None;
    for end in ends {
        let added = add_server(&mut all, end);
        fault = told_after(fault, added);
    }
    match fault {
        Some(fault) => Err(fault),
        None => Ok(all),
    }
}

// Adds what a session's thread gave back, if it is the next session's and asked its program's requests, all.
fn add_entries(
    all: &mut Vec<Entries>,
    programs: &[Lines],
    attendance: Attendance,
) -> Result<(), LiveFault>
    requires asked { AllAsked programs.now all.old.items }
    requires gave_up { All GivesUpWhereStuck all.old.items }
    ensures asked { AllAsked programs.now all.new.items }
    ensures gave_up { All GivesUpWhereStuck all.new.items }
    ensures len { OnOk result (vec_len all.new ≡ vec_len all.old + 1) }
    ensures fault { IfErr result (λ fault. (fault ≡ LiveFault.Memory tt) ⊎ (fault ≡ LiveFault.Letter)) }
{
    let Attendance { place, session } = attendance;
    if place != all.len() || place >= programs.len() {
        return Err(LiveFault::Letter);
    }
    let program = &programs[place];
    let Some(entries) = session.close(program.items.as_slice()) else {
        return Err(LiveFault::Letter);
    };
    all.make_room(1)?;
    all.push_reserved(Entries { items: entries });
    Ok(())
}

// Adds what a session's thread gave back, if it met no fault.
fn add_session(all: &mut Vec<Entries>, programs: &[Lines], end: SessionEnd) -> Result<(), LiveFault>
    requires asked { AllAsked programs.now all.old.items }
    requires gave_up { All GivesUpWhereStuck all.old.items }
    ensures asked { AllAsked programs.now all.new.items }
    ensures gave_up { All GivesUpWhereStuck all.new.items }
    ensures len { OnOk result (vec_len all.new ≡ vec_len all.old + 1) }
    ensures fault { AddsOrTells (result_err end.result) result }
    ensures gate { NoGate result }
{
    let SessionEnd { result: given, .. } = end;
    match given {
        Ok(attendance) => add_entries(all, programs, attendance),
        Err(met) => Err(met),
    }
}

// The sessions' entries, where each thread gave its own.
pub(crate) fn entries(
    alloc: Global,
    programs: &[Lines],
    ends: Vec<SessionEnd>,
) -> Result<Vec<Entries>, LiveFault>
    ensures asked { IfOk result (λ v. AllAsked programs.now v.items) }
    ensures gave_up { IfOk result (λ v. All GivesUpWhereStuck v.items) }
    ensures told { IfErr result (IsToldOf (filter_map (λ end. result_err end.result) ends.items)) }
    ensures gate { NoGate result }
{
    let mut all = Vec::new(alloc);
    let mut fault = None;
    for end in ends {
        let added = add_session(&mut all, programs, end);
        fault = told_after(fault, added);
    }
    match fault {
        Some(fault) => Err(fault),
        None => Ok(all),
    }
}

// All that the threads gave, unless there is a fault; then the one of the least number.
pub(crate) fn all_or_least(
    cells: Result<Vec<Journal>, LiveFault>,
    sessions: Result<Vec<Entries>, LiveFault>,
    fault: Option<LiveFault>,
) -> Result<(Vec<Journal>, Vec<Entries>), LiveFault>
    ensures cells { IfOk result (λ all. cells ≡ Ok all.0) }
    ensures sessions { IfOk result (λ all. sessions ≡ Ok all.1) }
    ensures least { IfErr result (IsLeastOf (option_to_list fault ++ (fault_in cells ++ fault_in sessions))) }
    ensures gate { NoGate cells → NoGate sessions → ForSome fault (λ met. met ≢ FaultIs.Gate) → NoGate result }
{
    match both_or_least(cells, sessions) {
        Err(met) => Err(least(fault, met)),
        Ok(all) => match fault {
            Some(fault) => Err(fault),
            None => Ok(all),
        },
    }
}
