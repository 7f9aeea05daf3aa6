//! When servers were down.

ghost use Rattle.std.specs.Prelude.{◌≡◌, ◌≤◌, ◌++◌, length, map, reverse, IfOk, OnOk, None, get_or};
ghost use Rattle.gq_model.specs.Lone.{is_refusal};
ghost use Rattle.gq_model.specs.Shown.{shown};
ghost use Rattle.gq_picture.specs.Absences.{absence_in, absences, effect_of, effects, line_effect, with_return};

use gq_memory::{GrowVec, OutOfMemory, filled};
use gq_model::{Answer, Event, ServerLine};
use std::alloc::Global;

/// A server was down from the line at this place up to that at the other one, or to the end.
#[derive(Clone, Copy)]
pub struct Absence {
    pub server: u8,
    pub from: usize,
    pub until: Option<usize>,
}

/// What an answered line does to servers.
#[derive(Clone, Copy, PartialEq, Eq)]
pub enum Effect {
    Nothing,
    /// The server goes down; it may have been down, and may be lost.
    GoesDown { server: u32 },
    /// The server comes back.
    ComesBack { server: u32 },
}

// Whether the line of this answer is refused.
fn is_refused(answer: &Answer) -> bool
    ensures { result ≡ is_refusal (shown answer.now) }
{
    matches!(answer, Answer::Refused(_) | Answer::ServerRefused(_))
}

// What a server line does that is not refused.
fn line_effect(line: ServerLine) -> Effect
    ensures { result ≡ line_effect line }
{
    match line {
        ServerLine::Bad => Effect::Nothing,
        ServerLine::Down { server } | ServerLine::Lost { server } => Effect::GoesDown { server },
        ServerLine::Up { server } | ServerLine::Repaired { server } => Effect::ComesBack { server },
    }
}

// What the event of this answer does to servers.
fn effect_of(event: &Event, answer: &Answer) -> Effect
    ensures { result ≡ effect_of event.now (shown answer.now) }
{
    match event {
        Event::Server { line } => {
            if is_refused(answer) {
                Effect::Nothing
            } else {
                line_effect(*line)
            }
        }
        _ => Effect::Nothing,
    }
}

/// What the events of these answers do to servers.
#[tactic(auto, using(crate::proofs::Effects::effects_all))]
pub fn read_effects(
    alloc: Global,
    events: &[Event],
    answers: &[Answer],
) -> Result<Vec<Effect>, OutOfMemory>
    requires { length answers.now ≡ length events.now }
    ensures { IfOk result (λ all. all.items ≡ effects events.now (map shown answers.now)) }
{
    let mut all = Vec::new(alloc);
    for i in 0..events.len() {
        all.grow(effect_of(&events[i], &answers[i]))?;
    }
    Ok(all)
}

// Where the server comes back next, by the table.
fn return_in(returns: &[Option<usize>], server: usize) -> Option<usize>
    ensures { result ≡ get_or returns.now server None }
{
    match returns.get(server) {
        Some(place) => *place,
        None => None,
    }
}

// The absence that begins at the place, if one does.
fn begin(
    all: &mut Vec<Absence>,
    returns: &[Option<usize>],
    place: usize,
    effect: Effect,
) -> Result<(), OutOfMemory>
    requires { length returns.now ≤ 256 }
    ensures { OnOk result (all.new.items ≡ all.old.items ++ absence_in returns.now place effect) }
{
    if let Effect::GoesDown { server } = effect
        && (server as usize) < returns.len()
    {
        all.grow(Absence {
            server: server as u8,
            from: place,
            until: return_in(returns, server as usize),
        })?;
    }
    Ok(())
}

// The table before the place, at which a server may come back.
fn note(returns: &mut Vec<Option<usize>>, place: usize, effect: Effect)
    ensures { returns.new.items ≡ with_return place effect returns.old.items }
{
    if let Effect::ComesBack { server } = effect {
        let server = server as usize;
        if server < returns.len() {
            returns[server] = Some(place);
        }
    }
}

/// When each of so many servers was down: from each line by which it goes down to the next one by which it comes back, in order
/// of the lines. The effects stand at these places.
pub fn read_absences(
    alloc: Global,
    servers: usize,
    places: &[usize],
    effects: &[Effect],
) -> Result<Vec<Absence>, OutOfMemory>
    requires places { length places.now ≡ length effects.now }
    requires servers { servers ≤ 256 }
    ensures { IfOk result (λ all. all.items ≡ absences servers places.now effects.now) }
{
    let mut returns = filled(alloc, None, servers)?;
    let mut all = Vec::new(alloc);
    for i in (0..effects.len()).rev() {
        let effect = effects[i];
        begin(&mut all, returns.as_slice(), places[i], effect)?;
        note(&mut returns, places[i], effect);
    }
    all.reverse();
    Ok(all)
}
