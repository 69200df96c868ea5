//! What a run asks of the world outside: named files, and a sink that takes what is printed.
//!
//! An object tells the bytes that it holds where it can, and counts its failures.
//! So what a run promises of bytes and of failures can be said of any files and any sink.

ghost use Rattle.std.specs.Prelude.{◌≡◌, ◌≤◌, ◌^◌, ℕ, true, false, List, [], Some, None, length, IsTrue, IfOk, IfSome, IsErr, OnOk, OnErr, IsErrOf};
ghost use Rattle.tail_outside.specs.inside.Outside.{HoldsFront, IsRead, OnlyWritten, WriteHasFailed, with_piece};
ghost use Rattle.tail_outside.specs.Outside.{OnlyRead, PieceHasFailed, ReadHasFailed, Takes, TakesFront};
ghost use Rattle.tail_outside.specs.Shown.{FilesShown, SinkShown};

/// A read that failed.
#[derive(Clone, Copy, PartialEq, Eq, Debug)]
pub struct Failed;

/// Why a piece was not taken, or only a front of it.
#[derive(Clone, Copy, PartialEq, Eq, Debug)]
pub enum Fault {
    /// The write failed, and the count of failed writes has risen.
    Failed,
    /// There was no memory for the piece.
    Memory,
}

/// Named files, which are read at any place and written at their end.
pub trait Files {
    /// What is told of the files, the names that may be used, and the counts of failures.
    ghost shows: { Self → FilesShown };

    /// Reads bytes of the file from a place on into the front of `into`, and tells how many. None means the file's end, unless
    /// `into` has no room.
    fn read_at(&mut self, name: &str, at: u64, into: &mut [u8]) -> Result<usize, Failed>
        requires named { IsTrue ((shows self.old).lets_read name.now) }
        requires near { at ≤ 2 ^ 40 }
        ensures fits { IfOk result (λ n. n ≤ length into.old) }
        ensures read { IfOk result (λ n. IfSome ((shows self.old).holds name.now)
            (λ bytes. IsRead bytes at into.new n)) }
        ensures only_read { OnlyRead (shows self.old) (shows self.new) }
        ensures cause { IsErr result → ReadHasFailed (shows self.old) (shows self.new) };

    /// Makes the file empty, also where there is none yet. After a fault it is as it was.
    fn begin(&mut self, name: &str) -> Result<(), Fault>
        requires { IsTrue ((shows self.old).lets_write name.now) }
        ensures empty { OnOk result ((shows self.new).ceased name.now ≡ false →
            (shows self.new).holds name.now ≡ Some []) }
        ensures same { OnErr result ((shows self.new).holds name.now ≡ (shows self.old).holds name.now) }
        ensures only_written { OnlyWritten name.now (shows self.old) (shows self.new) }
        ensures cause { IsErrOf result Fault.Failed → WriteHasFailed (shows self.old) (shows self.new) }
        ensures memory { IsErrOf result Fault.Memory →
            (shows self.new).write_faults ≡ (shows self.old).write_faults };

    /// Adds the piece at the end of the file, which is made where there is none. After a fault a front of it was added.
    fn append(&mut self, name: &str, piece: &[u8]) -> Result<(), Fault>
        requires { IsTrue ((shows self.old).lets_write name.now) }
        ensures added { OnOk result ((shows self.new).ceased name.now ≡ false →
            (shows self.new).holds name.now ≡ with_piece ((shows self.old).holds name.now) piece.now) }
        ensures front { OnErr result ((shows self.new).ceased name.now ≡ false →
            HoldsFront ((shows self.old).holds name.now) ((shows self.new).holds name.now) piece.now) }
        ensures only_written { OnlyWritten name.now (shows self.old) (shows self.new) }
        ensures cause { IsErrOf result Fault.Failed → WriteHasFailed (shows self.old) (shows self.new) }
        ensures memory { IsErrOf result Fault.Memory →
            (shows self.new).write_faults ≡ (shows self.old).write_faults };

    /// Of a name that has ceased nothing is told.
    ghost ceased_tells_nothing: { (f : Self) (name : List ℕ) → (shows f).ceased name ≡ true →
        (shows f).holds name ≡ None };
}

/// What takes bytes, piece by piece.
pub trait Sink {
    /// What is told of the bytes that were taken, and the count of failures.
    ghost shows: { Self → SinkShown };

    /// What the sink holds beside what it shows is the same before and after.
    ghost beside: { Self → Self → Type 0 };

    /// Takes the piece. After a fault a front of it was taken.
    fn put(&mut self, piece: &[u8]) -> Result<(), Fault>
        ensures taken { OnOk result (Takes (shows self.old) (shows self.new) piece.now) }
        ensures front { OnErr result (TakesFront (shows self.old) (shows self.new) piece.now) }
        ensures beside { beside self.old self.new }
        ensures ceases { (shows self.new).ceased ≡ false → (shows self.old).ceased ≡ false }
        ensures counts { (shows self.old).faults ≤ (shows self.new).faults }
        ensures cause { IsErrOf result Fault.Failed → PieceHasFailed (shows self.old) (shows self.new) }
        ensures memory { IsErrOf result Fault.Memory → (shows self.new).faults ≡ (shows self.old).faults };

    /// A sink that has ceased tells nothing.
    ghost ceased_tells_nothing: { (s : Self) → (shows s).ceased ≡ true → (shows s).told ≡ None };

    /// A call that does nothing keeps what is beside.
    ghost beside_same: { (s : Self) → beside s s };

    /// Two calls keep it where each does.
    ghost beside_chains: { (a b c : Self) → beside a b → beside b c → beside a c };
}
