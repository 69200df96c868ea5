//! Logs: what is told the events of a search's tree, one after the other.
//!
//! A log says which list of events it tells, in its own terms, and whether it is torn between a list and the event after
//! it. So what a search promises of its events can be said of any log: one that keeps nothing, one that keeps the events,
//! and one that writes lines, of which the last may be cut off.

ghost use Rattle.std.specs.Prelude.{◌≡◌, ◌∷◌, [], List, true, false, ⊤, IsOk, IfOk, OnOk, OnErr, IsErrOf};
ghost use Rattle.std.specs.List.{All};
ghost use Rattle.branch_marks.specs.declared.event.Event.{Event};
ghost use Rattle.branch_marks.specs.Events.{IsNotable};
ghost use Rattle.branch_marks.specs.LogShown.{LogShown};
ghost use Rattle.branch_marks.specs.TreeLog.{Notes, NotesNothing, IsLater, TellsNothing, LeavesLabelsOut, WriteHasFailed};

use crate::Event;
use std::alloc::Global;
use std::marker::Model;
use tail_book::Memory;

/// Why an event was not noted.
#[derive(Clone, Copy, PartialEq, Eq, Debug)]
pub enum LogFail {
    /// A write failed, and the count of faults has risen.
    Write,
    /// There was no memory for the event.
    Memory,
}

/// What is told the events of a tree.
pub trait TreeLog {
    /// Which events the log tells, and how many writes failed.
    ghost shows: { Self → LogShown };

    /// What the log holds beside the events is the same before and after.
    ghost beside: { Self → Self → Type 0 };

    /// Whether the events are wanted. A log that wants none tells no list, so that nothing has to be made for it.
    fn wants_events(&self) -> bool
        ensures { result ≡ false → TellsNothing (shows self.now) };

    /// Whether the labels of covers are wanted. A log that wants none tells the same without them, so that no family has to
    /// be made for a cover.
    fn wants_labels(&self) -> bool
        ensures { result ≡ false → LeavesLabelsOut (shows self.now) };

    /// Notes the event at the end of the list. After a failure the log tells the list as it was, or is torn.
    fn note(&mut self, event: &Event) -> Result<(), LogFail>
        requires { IsNotable event.now }
        ensures noted { OnOk result (Notes (shows self.old) (shows self.new) (event.now ∷ [])) }
        ensures failed { OnErr result (NotesNothing (shows self.old) (shows self.new) event.now) }
        ensures later { IsLater (shows self.old) (shows self.new) }
        ensures beside { beside self.old self.new }
        ensures cause { IsErrOf result LogFail.Write → WriteHasFailed (shows self.old) (shows self.new) };

    ghost beside_same: { (log : Self) → beside log log };

    ghost beside_chains: { (a b c : Self) → beside a b → beside b c → beside a c };
}

/// A log that keeps nothing, and so tells no list.
#[derive(Drop)]
pub struct NoLog;

impl TreeLog for NoLog {
    ghost shows = { λ _. record { tells = λ _. ⊥; torn = λ _ _. ⊥; ceased = false; faults = 0 } };

    ghost beside = { λ _ _. ⊤ };

    fn wants_events(&self) -> bool
        ensures none { result ≡ false }
    {
        false
    }

    fn wants_labels(&self) -> bool
        ensures none { result ≡ false }
    {
        false
    }

    fn note(&mut self, _event: &Event) -> Result<(), LogFail>
        ensures ok { IsOk result }
    {
        Ok(())
    }

    ghost beside_same = { λ _. tt };

    ghost beside_chains = { λ _ _ _ _ _. tt };
}

/// A log that keeps the events, and tells exactly those.
#[derive(Drop)]
pub struct MemTree {
    events: Vec<Event>,
}

impl Model for MemTree {
    ghost Value = { List Event };

    ghost view = { λ log. log.events.items };

    ghost invariant = { λ log. All IsNotable log.events.items };
}

impl MemTree {
    /// A log without an event.
    pub fn new(alloc: Global) -> Result<MemTree, Memory>
        ensures ok { IsOk result }
        ensures none { IfOk result (λ log. log ≡ []) }
    {
        Ok(MemTree {
            events: Vec::new(alloc),
        })
    }

    /// The events that were noted, in order. Each is one that a line spells.
    pub fn events(&self) -> &[Event]
        ensures events { result.now ≡ self.now }
        ensures notable { All IsNotable self.now }
    {
        self.events.as_slice()
    }
}

impl TreeLog for MemTree {
    ghost shows = { λ log. record { tells = λ told. log ≡ told; torn = λ _ _. ⊥; ceased = false; faults = 0 } };

    ghost beside = { λ _ _. ⊤ };

    fn wants_events(&self) -> bool
        ensures all { result ≡ true }
    {
        true
    }

    fn wants_labels(&self) -> bool
        ensures all { result ≡ true }
    {
        true
    }

    fn note(&mut self, event: &Event) -> Result<(), LogFail> {
        match self.events.push(*event) {
            Ok(()) => Ok(()),
            Err(_) => Err(LogFail::Memory),
        }
    }

    ghost beside_same = { λ _. tt };

    ghost beside_chains = { λ _ _ _ _ _. tt };
}
