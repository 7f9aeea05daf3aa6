//! The facts that a start needs.

ghost use Rattle.std.specs.Prelude.{◌≡◌, ◌<◌, ◌+◌, ◌^◌, ℕ, List, Bool, false, length, IsSome, OnOk};
ghost use Rattle.gq_shelf.specs.Notes.{Noted};
ghost use Rattle.gq_desk.specs.CheckedPlan.{row_at};
ghost use Rattle.gq_text.specs.Canonical.{IsPlan};
ghost use Rattle.gq_ledger.specs.Ledgers.{book_of};
ghost use Rattle.gq_depot.specs.Answers.{In};
ghost use Rattle.gq_depot.specs.Depots.{standing_of, bare};
ghost use Rattle.gq_chunks.specs.Machines.{chunks, AllFit, GoneFits, IsSound, AreSound};
ghost use Rattle.gq_chunks.specs.Needed.{WroteOf, ChunksFit, ForgottenFit, before_place, before_chunks, RunFits, with_run, before_number, lacking, first_lacks, written_of, WroteTenants};

use crate::ChunkFact;
use crate::new_depots::lacks_at_first;
use crate::ranges::put_sound_fact;
use gq_depot::{Depot, Gone};
use gq_desk::Plan;
use gq_memory::OutOfMemory;
use gq_stock::Run;

// Appends the fact of the floor of the session at this place, unless that is 0.
fn put_floor(
    plan: &Plan,
    tenant: u8,
    depot: &Depot,
    place: u32,
    facts: &mut Vec<u8>,
) -> Result<(), OutOfMemory>
    requires sound { IsPlan plan.now }
    requires tenant { tenant < length plan.now.rows }
    requires few { place + 1 < 2 ^ 32 }
    requires place { place < length depot.now.stock.sessions.items }
    ensures { (lacks : Bool) → OnOk result (WroteOf plan.now tenant depot.now facts.old.items facts.new.items (λ it. before_place it lacks place) (λ it. before_chunks it lacks place (λ n. false))) }
{
    let floor = depot.stock.sessions[place as usize].floor();
    if floor == 0 {
        return Ok(());
    }
    let fact = ChunkFact::Forgot {
        session: place + 1,
        floor,
        run: Run { first: 1, last: 0 },
    };
    put_sound_fact(facts, plan, tenant, &fact)
}

// Appends the fact of a run that was forgotten, if it is one of the session at this place.
fn put_run(
    plan: &Plan,
    tenant: u8,
    depot: &Depot,
    place: u32,
    gone: Gone,
    facts: &mut Vec<u8>,
) -> Result<(), OutOfMemory>
    requires sound { IsPlan plan.now }
    requires tenant { tenant < length plan.now.rows }
    requires few { place + 1 < 2 ^ 32 }
    requires place { place < length depot.now.stock.sessions.items }
    ensures { (lacks : Bool) (before : ℕ → Bool) → RunFits depot.now place gone → OnOk result (WroteOf plan.now tenant depot.now facts.old.items facts.new.items (λ it. before_chunks it lacks place before) (λ it. before_chunks it lacks place (with_run before place gone))) }
{
    if gone.place != place as usize || gone.run.last < gone.run.first {
        return Ok(());
    }
    let fact = ChunkFact::Forgot {
        session: place + 1,
        floor: depot.stock.sessions[place as usize].floor(),
        run: gone.run,
    };
    put_sound_fact(facts, plan, tenant, &fact)
}

// Appends the facts of what the session at this place forgot since chunks are lacked.
fn put_runs(
    plan: &Plan,
    tenant: u8,
    depot: &Depot,
    place: u32,
    facts: &mut Vec<u8>,
) -> Result<(), OutOfMemory>
    requires sound { IsPlan plan.now }
    requires tenant { tenant < length plan.now.rows }
    requires few { place + 1 < 2 ^ 32 }
    requires place { place < length depot.now.stock.sessions.items }
    ensures { (lacks : Bool) → ForgottenFit depot.now → OnOk result (WroteOf plan.now tenant depot.now facts.old.items facts.new.items (λ it. before_chunks it lacks place (λ n. false)) (λ it. before_number it lacks place 0)) }
{
    if !depot.lacks {
        return Ok(());
    }
    for gone in depot.gone.as_slice() {
        put_run(plan, tenant, depot, place, *gone, facts)?;
    }
    Ok(())
}

// Appends the fact of the chunk of this number.
fn put_chunk(
    plan: &Plan,
    tenant: u8,
    depot: &Depot,
    place: u32,
    number: u64,
    facts: &mut Vec<u8>,
) -> Result<(), OutOfMemory>
    requires sound { IsPlan plan.now }
    requires tenant { tenant < length plan.now.rows }
    requires few { place + 1 < 2 ^ 32 }
    requires place { place < length depot.now.stock.sessions.items }
    requires chunk { In depot.now.stock.sessions.items place (λ session. IsSome ((book_of session.chunks).at number)) }
    ensures { (lacks : Bool) → ChunksFit depot.now → OnOk result (WroteOf plan.now tenant depot.now facts.old.items facts.new.items (λ it. before_number it lacks place number) (λ it. before_number it lacks place (number + 1))) }
{
    let fact = depot.fact_at(place as usize, place + 1, number)?;
    put_sound_fact(facts, plan, tenant, &fact)
}

// Appends the fact of the chunk of the number 0, if it is there.
fn put_zero(
    plan: &Plan,
    tenant: u8,
    depot: &Depot,
    place: u32,
    facts: &mut Vec<u8>,
) -> Result<(), OutOfMemory>
    requires sound { IsPlan plan.now }
    requires tenant { tenant < length plan.now.rows }
    requires few { place + 1 < 2 ^ 32 }
    requires place { place < length depot.now.stock.sessions.items }
    ensures { (lacks : Bool) → ChunksFit depot.now → OnOk result (WroteOf plan.now tenant depot.now facts.old.items facts.new.items (λ it. before_number it lacks place 0) (λ it. before_number it lacks place 1)) }
{
    let Some(_chunk) = depot.stock.sessions[place as usize].get(0) else {
        return Ok(());
    };
    put_chunk(plan, tenant, depot, place, 0, facts)
}

// Appends the facts of the chunks of greater numbers.
fn put_others(
    plan: &Plan,
    tenant: u8,
    depot: &Depot,
    place: u32,
    facts: &mut Vec<u8>,
) -> Result<(), OutOfMemory>
    requires sound { IsPlan plan.now }
    requires tenant { tenant < length plan.now.rows }
    requires few { place + 1 < 2 ^ 32 }
    requires place { place < length depot.now.stock.sessions.items }
    ensures { (lacks : Bool) → ChunksFit depot.now → OnOk result (WroteOf plan.now tenant depot.now facts.old.items facts.new.items (λ it. before_number it lacks place 1) (λ it. before_place it lacks (place + 1))) }
{
    let mut last = 0;
    while let Some((number, _)) = depot.stock.sessions[place as usize].after(last) {
        put_chunk(plan, tenant, depot, place, number, facts)?;
        last = number;
    }
    Ok(())
}

// Appends the facts of the session at this place, if it is there.
fn put_session(
    plan: &Plan,
    tenant: u8,
    depot: &Depot,
    place: u32,
    facts: &mut Vec<u8>,
) -> Result<(), OutOfMemory>
    requires sound { IsPlan plan.now }
    requires tenant { tenant < length plan.now.rows }
    requires few { place + 1 < 2 ^ 32 }
    ensures { (lacks : Bool) → ChunksFit depot.now → ForgottenFit depot.now → OnOk result (place < length depot.now.stock.sessions.items → WroteOf plan.now tenant depot.now facts.old.items facts.new.items (λ it. before_place it lacks place) (λ it. before_place it lacks (place + 1))) }
{
    if place as usize >= depot.stock.sessions.len() {
        return Ok(());
    }
    put_floor(plan, tenant, depot, place, facts)?;
    put_runs(plan, tenant, depot, place, facts)?;
    put_zero(plan, tenant, depot, place, facts)?;
    put_others(plan, tenant, depot, place, facts)
}

// Appends the facts of the tenant's sessions.
fn put_sessions(
    plan: &Plan,
    tenant: u8,
    depot: &Depot,
    facts: &mut Vec<u8>,
) -> Result<(), OutOfMemory>
    requires sound { IsPlan plan.now }
    requires tenant { tenant < length plan.now.rows }
    ensures { (lacks : Bool) → ChunksFit depot.now → ForgottenFit depot.now → length depot.now.stock.sessions.items ≡ (row_at plan.now tenant).sessions → OnOk result (WroteOf plan.now tenant depot.now facts.old.items facts.new.items (λ it. bare lacks) (λ it. lacking lacks it)) }
{
    let sessions = plan.row(tenant).sessions;
    for place in 0..sessions {
        put_session(plan, tenant, depot, place, facts)?;
    }
    Ok(())
}

// Appends that the node lacks no chunk of the tenant, where one that was never asked anything would lack some.
fn put_filled(
    node: u16,
    plan: &Plan,
    tenant: u8,
    depot: &Depot,
    facts: &mut Vec<u8>,
) -> Result<(), OutOfMemory>
    requires sound { IsPlan plan.now }
    requires tenant { tenant < length plan.now.rows }
    ensures { OnOk result (WroteOf plan.now tenant depot.now facts.old.items facts.new.items (λ it. lacking (first_lacks node depot.now) it) (λ it. written_of node depot.now)) }
{
    let allowed = depot.stock.allowed;
    if depot.lacks || !lacks_at_first(node, allowed, allowed) {
        return Ok(());
    }
    put_sound_fact(facts, plan, tenant, &ChunkFact::Filled)
}

// Appends the facts of the tenant.
fn put_tenant(
    node: u16,
    plan: &Plan,
    tenant: u8,
    depot: &Depot,
    facts: &mut Vec<u8>,
) -> Result<(), OutOfMemory>
    requires sound { IsPlan plan.now }
    requires tenant { tenant < length plan.now.rows }
    ensures { IsSound plan.now tenant depot.now → OnOk result (WroteOf plan.now tenant depot.now facts.old.items facts.new.items (λ it. bare (first_lacks node depot.now)) (λ it. written_of node depot.now)) }
{
    put_sessions(plan, tenant, depot, facts)?;
    put_filled(node, plan, tenant, depot, facts)
}

/// Appends the facts of all tenants.
pub(crate) fn put_tenants(
    node: u16,
    plan: &Plan,
    depots: &[Depot],
    facts: &mut Vec<u8>,
) -> Result<(), OutOfMemory>
    requires { IsPlan plan.now }
    ensures { (lost : List ℕ) (losses : ℕ) (noted : Noted) → length depots.now ≡ length plan.now.rows → AreSound plan.now depots.now → OnOk result (WroteTenants (chunks plan.now node lost losses depots.now noted) (length depots.now) facts.old.items facts.new.items) }
{
    let tenants = plan.tenants().min(depots.len());
    for place in 0..tenants {
        put_tenant(node, plan, place as u8, &depots[place], facts)?;
    }
    Ok(())
}
