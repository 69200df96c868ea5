//! The run under quotas: the four files, the search for a least plan among those that keep the quotas, and what is printed. A step
//! that fails gives the answer, so the first cause is what is told. No file is written.

ghost use Rattle.std.specs.Prelude.{◌≡◌, ◌≤◌, None, false, length};
ghost use Rattle.tail_outside.specs.Outside.{OnlyRead, PieceHasFailed, ReadHasFailed};
ghost use Rattle.quota_rows.specs.declared.quota.TheConstants.{QUOTA_LIMIT};
ghost use Rattle.run_frame.specs.inside.Answer.{IsAnswerTo, IsPrintable};
ghost use Rattle.run_frame.specs.Answer.{IsUnlessStopped};
ghost use Rattle.run_frame.specs.Spelled.{spelled};
ghost use Rattle.run_frame.specs.declared.answer.Answer.TheVariants.{ReadFailed};
ghost use Rattle.tailplan.specs.QuotaAnswers.{AreUnderQuotas, IsTrueQuotaAnswer, MayReadQuotas};
ghost use Rattle.tailplan.specs.QuotaCases.{HaveNoBook};
ghost use Rattle.tailplan.specs.QuotaPromises.{JudgesQuotas, QuotaPromise, RefusesQuotas};
ghost use Rattle.tailplan.specs.QuotaWords.{quota_of};
ghost use Rattle.tailplan.specs.inside.Quotas.{AreSearched, CanBeReported, outcome_of};

use crate::answer::Solved;
use crate::four_texts::{FourTexts, read_texts};
use crate::quota_words::quota_of;
use crate::under_quotas::UnderQuotas;
use crate::usage::quota_usage_line;
use quota_rows::{Quota, QuotaStop, read_quotas};
use quota_search::{QuotaOutcome, search_quotas};
use run_frame::{Answer, Ran, book_of, print};
use std::alloc::Global;
use tail_book::laws::legal_plans_fly_the_book;
use tail_book::{Book, CostTable, Outcome};
use tail_outside::{Files, ReadFail, Sink};

/// Plans the tables that the words name under their quotas: prints a least plan among those that keep the quotas, or that no
/// legal plan keeps them, or why the words or a file are refused.
pub fn run_quota<F: Files, S: Sink>(
    alloc: Global,
    words: &[String],
    files: F,
    out: &mut S,
) -> Ran<F>
    requires { MayReadQuotas (spelled words.now) (F.shows files) }
    ensures promised { QuotaPromise (spelled words.now) (F.shows files) (S.shows out.old) (S.shows out.new) result.status.0 }
    ensures read_failed { result.status.0 ≡ 5 → ReadHasFailed (F.shows files) (F.shows result.files) }
    ensures write_failed { result.status.0 ≡ 6 → PieceHasFailed (S.shows out.old) (S.shows out.new) }
    ensures words_refused { quota_of (spelled words.now) ≡ None → IsUnlessStopped 2 result.status.0 }
    ensures quota_refused { RefusesQuotas (spelled words.now) (F.shows files) result.status.0 }
    ensures kept { JudgesQuotas (spelled words.now) (F.shows files) result.status.0 }
    ensures same { OnlyRead (F.shows files) (F.shows result.files) }
    ensures beside { S.beside out.old out.new }
    ensures ceases { (S.shows out.new).ceased ≡ false → (S.shows out.old).ceased ≡ false }
    ensures counts { (S.shows out.old).faults ≤ (S.shows out.new).faults }
{
    let mut files = files;
    let answer = answer_of(alloc, words, &mut files);
    let status = print(alloc, quota_usage_line(), &answer, out);
    Ran { status, files }
}

// The answer to the words.
fn answer_of<F: Files>(alloc: Global, words: &[String], files: &mut F) -> Answer<UnderQuotas>
    requires { MayReadQuotas (spelled words.now) (F.shows files.old) }
    ensures answer { IsTrueQuotaAnswer (spelled words.now) (F.shows files.old) result }
    ensures printable { IsPrintable CanBeReported result }
    ensures same { OnlyRead (F.shows files.old) (F.shows files.new) }
    ensures cause { result ≡ ReadFailed → ReadHasFailed (F.shows files.old) (F.shows files.new) }
{
    let Some(names) = quota_of(words) else {
        return Answer::Usage;
    };
    match read_texts(alloc, files, &names) {
        Ok(texts) => planned(alloc, &texts),
        Err(ReadFail::Failed) => Answer::ReadFailed,
        Err(ReadFail::Memory) => Answer::Memory,
    }
}

// The answer to the three tables and the quotas.
fn planned(alloc: Global, texts: &FourTexts) -> Answer<UnderQuotas>
    ensures answer { IsAnswerTo HaveNoBook AreUnderQuotas texts.now result }
    ensures printable { IsPrintable CanBeReported result }
{
    let book = match book_of(alloc, &texts.tables) {
        Ok(book) => book,
        Err(answer) => return answer,
    };
    match read_quotas(alloc, &book, &texts.fourth) {
        Ok(quotas) => kept(alloc, book, &quotas),
        Err(QuotaStop::Refused { code, place }) => {
            Answer::Found(UnderQuotas::Refused { code, place })
        }
        Err(QuotaStop::Memory) => Answer::Memory,
    }
}

// A least plan of the book among those that keep the quotas, as the answer of the run.
fn kept(alloc: Global, book: Book, quotas: &[Quota]) -> Answer<UnderQuotas>
    requires { length quotas.now ≤ QUOTA_LIMIT }
    ensures answer { AreSearched book quotas.now result }
    ensures printable { IsPrintable CanBeReported result }
{
    legal_plans_fly_the_book();
    let Ok(table) = CostTable::of(alloc, &book) else {
        return Answer::Memory;
    };
    match search_quotas(alloc, &book, &table, quotas) {
        Ok(outcome) => {
            let outcome = outcome_of(outcome);
            Answer::Found(UnderQuotas::Planned(Solved { book, outcome }))
        }
        Err(_) => Answer::Memory,
    }
}

// The outcome whose report is printed.
fn outcome_of(outcome: QuotaOutcome) -> Outcome
    ensures { result ≡ outcome_of outcome }
{
    match outcome {
        QuotaOutcome::Optimal(plan, cost) => Outcome::Optimal(plan, cost),
        QuotaOutcome::Infeasible => Outcome::Infeasible,
    }
}
