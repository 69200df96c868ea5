//! Notes to a log: what is due, event by event, and what it tells then where it fails in between: a front of what was
//! due. An event that failed is not told again, and none is told behind it.

ghost use Rattle.std.specs.Prelude.{◌≡◌, ◌∷◌, [], All, IfOk, OnOk, OnErr, IsErrOf};
ghost use Rattle.branch_marks.specs.Events.{IsNotable, IsLineFact};
ghost use Rattle.node_leaves.specs.NodeEvents.{step_events};
ghost use Rattle.branch_marks.specs.TreeLog.{Notes, NotesFront, IsLater, WriteHasFailed};

use crate::Stop;
use crate::node_events::list_steps;
use branch_marks::{Event, Fact, LogFail, TreeLog};
use std::alloc::Global;
use tail_book::Memory;

/// Notes an event.
pub fn note_one<L: TreeLog>(log: &mut L, event: &Event) -> Result<(), Stop>
    requires { IsNotable event.now }
    ensures noted { OnOk result (Notes (L.shows log.old) (L.shows log.new) (event.now ∷ [])) }
    ensures cut { OnErr result (NotesFront (L.shows log.old) (L.shows log.new) (event.now ∷ [])) }
    ensures later { IsLater (L.shows log.old) (L.shows log.new) }
    ensures beside { L.beside log.old log.new }
    ensures cause { IsErrOf result Stop.Log → WriteHasFailed (L.shows log.old) (L.shows log.new) }
{
    match log.note(event) {
        Ok(()) => Ok(()),
        Err(LogFail::Write) => Err(Stop::Log),
        Err(LogFail::Memory) => Err(Stop::Memory),
    }
}

/// Notes events in order.
pub fn note_all<L: TreeLog>(log: &mut L, events: &[Event]) -> Result<(), Stop>
    requires { All IsNotable events.now }
    ensures noted { OnOk result (Notes (L.shows log.old) (L.shows log.new) events.now) }
    ensures cut { OnErr result (NotesFront (L.shows log.old) (L.shows log.new) events.now) }
    ensures later { IsLater (L.shows log.old) (L.shows log.new) }
    ensures beside { L.beside log.old log.new }
    ensures cause { IsErrOf result Stop.Log → WriteHasFailed (L.shows log.old) (L.shows log.new) }
{
    for i in 0..events.len() {
        if let Err(stop) = note_one(log, &events[i]) {
            return Err(stop);
        }
    }
    Ok(())
}

/// Notes the steps of a node in order.
pub fn note_steps<L: TreeLog>(alloc: Global, steps: &[Fact], log: &mut L) -> Result<(), Stop>
    requires { All IsLineFact steps.now }
    ensures noted { OnOk result (Notes (L.shows log.old) (L.shows log.new) (step_events steps.now)) }
    ensures cut { OnErr result (NotesFront (L.shows log.old) (L.shows log.new) (step_events steps.now)) }
    ensures later { IsLater (L.shows log.old) (L.shows log.new) }
    ensures beside { L.beside log.old log.new }
    ensures cause { IsErrOf result Stop.Log → WriteHasFailed (L.shows log.old) (L.shows log.new) }
{
    let events = match steps_of(alloc, steps) {
        Ok(events) => events,
        Err(_) => return Err(Stop::Memory),
    };
    if let Err(stop) = note_all(log, &events) {
        return Err(stop);
    }
    Ok(())
}

// The events of steps.
fn steps_of(alloc: Global, steps: &[Fact]) -> Result<Vec<Event>, Memory>
    requires { All IsLineFact steps.now }
    ensures events { IfOk result (λ events. events.items ≡ step_events steps.now) }
    ensures notable { IfOk result (λ events. All IsNotable events.items) }
{
    let mut events = Vec::new(alloc);
    list_steps(&mut events, steps)?;
    Ok(events)
}
