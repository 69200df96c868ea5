//! What is drawn of a shortage: a book, and what its file tells.

ghost use Rattle.std.specs.Prelude.{◌≡◌, ◌≤◌, ℕ, false, List, OnErr, OnOk, IsErrOf};
ghost use Rattle.shortage_picture.specs.Picture.{page_lines};
ghost use Rattle.shortage_reader.specs.inside.OfBook.{IsToldOf};

use plan_report::ReportFail;
use run_frame::{Finding, Status};
use shortage_picture::{View, write_shortage};
use shortage_reader::ToldShortage;
use std::alloc::Global;
use tail_book::Book;
use tail_outside::Sink;

/// What is drawn: the book of the tables, the shortage, and what is shown beside it.
#[derive(Drop)]
pub struct Shown {
    pub book: Book,
    pub told: ToldShortage,
    pub view: View,
}

impl Finding for Shown {
    ghost lines = { λ s. page_lines s.view s.book s.told };

    ghost code = { λ s. 0 };

    ghost is_printable = { λ s. IsToldOf s.book s.told };

    fn status(&self) -> Status {
        Status(0)
    }

    fn write<S: Sink>(&self, alloc: Global, out: &mut S) -> Result<(), ReportFail> {
        write_shortage(alloc, self.view, &self.book, &self.told, out)
    }
}
