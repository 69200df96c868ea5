//! A sink in memory, which tells its bytes. A piece is taken whole or not at all.

ghost use Rattle.std.specs.Prelude.{◌≡◌, ◌≤◌, ◌↔◌, ◌++◌, IsTrue, IsOk, IfOk, OnOk, OnErr, IsErrOf};
ghost use Rattle.tail_outside.specs.inside.Held.{fails_next, one_more, sink_at_first};
ghost use Rattle.tail_book.specs.Faults.{HasRisen};

use crate::calls::Calls;
use crate::{Fault, Sink};
use std::alloc::Global;
use std::marker::Model;
use tail_book::Memory;

/// A sink in memory. The calls whose numbers are listed fail.
#[derive(Drop)]
pub struct MemSink {
    bytes: Vec<u8>,
    calls: Calls,
    faults: u64,
}

impl Model for MemSink {
    ghost use Rattle.tail_outside.specs.inside.Seen.{MemSinkSeen};

    ghost Value = { MemSinkSeen };

    ghost view = { λ s. record { bytes = s.bytes.items; calls = s.calls; faults = s.faults } };
}

impl MemSink {
    /// An empty sink. The calls with the numbers in `failing`, counted from 1, will fail.
    pub fn new(alloc: Global, failing: Vec<u64>) -> Result<MemSink, Memory>
        ensures ok { IsOk result }
        ensures made { IfOk result (λ made. made ≡ sink_at_first failing.items) }
    {
        Ok(MemSink {
            bytes: Vec::new(alloc),
            calls: Calls::new(failing),
            faults: 0,
        })
    }

    /// What was taken.
    pub fn bytes(&self) -> &[u8]
        ensures { result.now ≡ self.now.bytes }
    {
        self.bytes.as_slice()
    }
}

impl Sink for MemSink {
    ghost use Rattle.std.specs.Prelude.{◌≡◌, Some, false, refl};
    ghost use Rattle.std.proofs.Common.{◌∙◌};
    ghost use Rattle.std.proofs.lemmas.Bool.{false≢true};

    ghost shows = { λ s. record { told = Some s.bytes; ceased = false; faults = s.faults } };

    ghost beside = { λ a b. b.calls.failing ≡ a.calls.failing };

    ghost ceased_tells_nothing = { λ s gone. absurd (false≢true gone) };

    ghost beside_same = { λ s. refl };

    ghost beside_chains = { λ a b c h k. k ∙ h };

    fn put(&mut self, piece: &[u8]) -> Result<(), Fault>
        ensures taken { OnOk result (self.new.bytes ≡ self.old.bytes ++ piece.now) }
        ensures same { OnErr result (self.new.bytes ≡ self.old.bytes) }
        ensures failed { IsErrOf result Fault.Failed ↔ IsTrue (fails_next self.old.calls) }
        ensures called { self.new.calls ≡ one_more self.old.calls }
        ensures counts { self.old.faults ≤ self.new.faults }
        ensures cause { IsErrOf result Fault.Failed → HasRisen self.old.faults self.new.faults }
        ensures memory { IsErrOf result Fault.Memory → self.new.faults ≡ self.old.faults }
        ensures quiet { OnOk result (self.new.faults ≡ self.old.faults) }
    {
        if self.calls.fails() {
            self.faults = self.faults.saturating_add(1);
            return Err(Fault::Failed);
        }
        match self.bytes.extend_from_slice(piece) {
            Ok(()) => Ok(()),
            Err(_) => Err(Fault::Memory),
        }
    }
}
