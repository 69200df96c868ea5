//! A sink over one named file: each piece is appended there, and every other file stays as it is.

ghost use Rattle.std.specs.Prelude.{◌≡◌, false, IsErrOf, IsTrue, OnErr, OnOk};
ghost use Rattle.tail_outside.specs.inside.Outside.{HoldsFront, OnlyWritten, WriteHasFailed, with_piece};

use crate::{Fault, Files, Sink};

/// A sink over one named file of some files, which it holds meanwhile. It tells what the file holds, and nothing until the
/// file is there.
#[derive(Drop)]
pub struct FileSink<'a, F: Files> {
    /// The files, among which the sink's is one.
    pub files: F,
    /// The name of the sink's file.
    pub name: &'a str,
    ghost lets: { IsTrue ((F.shows files).lets_write name.now) },
}

impl<'a, F: Files> FileSink<'a, F> {
    /// A sink over the file of this name.
    pub fn new(files: F, name: &'a str) -> FileSink<'a, F>
        requires { IsTrue ((F.shows files).lets_write name.now) }
        ensures files { result.files ≡ files }
        ensures name { result.name ≡ name.entry }
    {
        FileSink { files, name }
    }

    /// The files as they stand.
    pub fn into_files(self) -> F
        ensures { result ≡ self.entry.files }
    {
        let FileSink { files, name: _ } = self;
        files
    }
}

impl<'a, F: Files> Sink for FileSink<'a, F> {
    ghost use Rattle.std.specs.Prelude.{◌≡◌, refl};
    ghost use Rattle.std.proofs.Common.{◌∙◌, ap};
    ghost use Rattle.tail_outside.specs.inside.OverFile.{shown_over};
    ghost use Rattle.tail_outside.specs.inside.Outside.{OnlyWritten, only_written_same, only_written_chains};

    ghost shows = { λ s. shown_over (F.shows s.files) s.name.now };

    // The name stays, and no other file is written.
    ghost beside = { λ a b. (b.name ≡ a.name)
        × OnlyWritten a.name.now (F.shows a.files) (F.shows b.files) };

    ghost ceased_tells_nothing = { λ s gone. F.ceased_tells_nothing s.files s.name.now gone };

    ghost beside_same = { λ s. (refl, only_written_same s.name.now (F.shows s.files)) };

    ghost beside_chains = { λ a b c h k. (
      k.0 ∙ h.0,
      only_written_chains a.name.now b.name.now (F.shows a.files) (F.shows b.files) (F.shows c.files)
          (ap (λ name. name.now) h.0) h.1 k.1,
    ) };

    fn put(&mut self, piece: &[u8]) -> Result<(), Fault>
        ensures added { OnOk result ((F.shows self.new.files).ceased self.new.name.now ≡ false →
            (F.shows self.new.files).holds self.new.name.now
            ≡ with_piece ((F.shows self.old.files).holds self.old.name.now) piece.now) }
        ensures front { OnErr result ((F.shows self.new.files).ceased self.new.name.now ≡ false →
            HoldsFront ((F.shows self.old.files).holds self.old.name.now)
            ((F.shows self.new.files).holds self.new.name.now) piece.now) }
        ensures name { self.new.name ≡ self.old.name }
        ensures only_written { OnlyWritten self.old.name.now (F.shows self.old.files) (F.shows self.new.files) }
        ensures cause { IsErrOf result Fault.Failed →
            WriteHasFailed (F.shows self.old.files) (F.shows self.new.files) }
        ensures memory { IsErrOf result Fault.Memory →
            (F.shows self.new.files).write_faults ≡ (F.shows self.old.files).write_faults }
    {
        self.files.append(self.name, piece)
    }
}
