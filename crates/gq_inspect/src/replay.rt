//! The records' run.

ghost use Rattle.std.specs.Prelude.{◌≡◌, ◌*◌, ◌++◌, ◌∷◌, [], length, map, All, IfOk, OnOk};
ghost use Rattle.gq_model.specs.Events.{IsIn};
ghost use Rattle.gq_world.specs.Tables.{Stands};
ghost use Rattle.gq_session.specs.Fitting.{plan_sessions};
ghost use Rattle.gq_inspect.specs.Replay.{IsRunOf, IsOpened, Opens, OrderFits, opening_event};
ghost use Rattle.gq_inspect.specs.Tapes.{before_of};

use crate::lists::{all_climb, all_flips};
use crate::mismatch::Mismatch;
use crate::playing::play;
use crate::replaying::Tape;
use crate::steps::{Step, in_order};
use gq_desk::Plan;
use gq_model::{Answer, Event, Line};
use gq_session::{Opening, Records, SessionId, sessions_of};
use std::alloc::Global;

// The volume is opened.
fn open(tape: &mut Tape, opening: Opening) -> Result<(), Mismatch>
    requires stands { Stands tape.old.world.tables tape.old.events.items }
    ensures opened { OnOk result (IsOpened tape.old.world.tables.plan tape.old.events.items opening) }
    ensures events { OnOk result (tape.new.events.items ≡ tape.old.events.items ++ opening_event opening ∷ []) }
    ensures stands { OnOk result (Stands tape.new.world.tables tape.new.events.items) }
    ensures plan { tape.new.world.tables.plan ≡ tape.old.world.tables.plan }
    ensures firsts { tape.new.firsts ≡ tape.old.firsts }
{
    let Opening {
        tenant,
        files,
        blocks,
    } = opening;
    if tenant as usize >= tape.tenants() {
        return Err(Mismatch::Shape);
    }
    let line = Line::NewVolume { files, blocks };
    let answer = tape.play(Event::Tenant { tenant, line })?;
    let Answer::Volume { .. } = answer else {
        return Err(Mismatch::Shape);
    };
    Ok(())
}

// The volumes are opened, in order.
fn open_all(tape: &mut Tape, openings: &[Opening]) -> Result<(), Mismatch>
    requires stands { Stands tape.old.world.tables tape.old.events.items }
    ensures opens { OnOk result (Opens tape.old.world.tables.plan tape.old.events.items openings.now) }
    ensures events { OnOk result (tape.new.events.items ≡ tape.old.events.items ++ map opening_event openings.now) }
    ensures stands { OnOk result (Stands tape.new.world.tables tape.new.events.items) }
    ensures plan { tape.new.world.tables.plan ≡ tape.old.world.tables.plan }
    ensures firsts { tape.new.firsts ≡ tape.old.firsts }
{
    for opening in openings.iter() {
        open(tape, *opening)?;
    }
    Ok(())
}

// The steps are played, in order.
fn play_all(
    tape: &mut Tape,
    records: &Records,
    ids: &[SessionId],
    order: &[Step],
) -> Result<(), Mismatch>
    requires stands { Stands tape.old.world.tables tape.old.events.items }
    requires ids { ids.now ≡ plan_sessions tape.old.world.tables.plan }
    ensures { OnOk result (OrderFits tape.old.world.tables.plan records.now order.now (before_of tape.old) tape.new.events.items) }
{
    for step in order.iter() {
        play(tape, records, ids, *step)?;
    }
    Ok(())
}

// Plays the records on a new tape: the volumes are opened, and then all steps are played, in order.
fn play_records(
    alloc: Global,
    tape: &mut Tape,
    records: &Records,
    ids: &[SessionId],
) -> Result<(), Mismatch>
    requires events { tape.old.events.items ≡ [] }
    requires firsts { tape.old.firsts.items ≡ [] }
    requires stands { Stands tape.old.world.tables [] }
    requires ids { ids.now ≡ plan_sessions tape.old.world.tables.plan }
    requires servers { length records.now.cells.items ≡ tape.old.world.tables.plan.grid.rows * tape.old.world.tables.plan.grid.cols }
    requires sessions { length records.now.sessions.items ≡ length ids.now }
    ensures { OnOk result (IsRunOf tape.old.world.tables.plan records.now tape.new.events.items) }
{
    open_all(tape, records.volumes.as_slice())?;
    if !all_climb(records) || !all_flips(alloc, records)? {
        return Err(Mismatch::Stamp);
    }
    let order = in_order(alloc, records)?;
    play_all(tape, records, ids, order.as_slice())
}

/// The events of the run that the records are: the openings of their volumes, and then one event for each change of the board,
/// each step of a session and each letter served, in order of stamp and place. Each is answered as it was recorded, for each
/// tenant as in its run by itself. A fault tells, in the order of [`Mismatch`], why the records are no such run; it is of the
/// first step that differs. It takes as many comparisons as a sort of the steps, and as long as a run of the events.
pub fn inspect(alloc: Global, plan: &Plan, records: &Records) -> Result<Vec<Event>, Mismatch>
    ensures run { IfOk result (λ events. IsRunOf plan.now records.now events.items) }
    ensures within { IfOk result (λ events. All (IsIn plan.now) events.items) }
{
    let ids = sessions_of(alloc, plan)?;
    if records.cells.len() != plan.grid().servers() || records.sessions.len() != ids.len() {
        return Err(Mismatch::Shape);
    }
    let mut tape = Tape::new(alloc, plan)?;
    play_records(alloc, &mut tape, records, ids.as_slice())?;
    Ok(tape.close())
}
