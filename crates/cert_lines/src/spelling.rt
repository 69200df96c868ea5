//! Lines, written.
//!
//! A line begins with a few fixed words, and numbers follow, each behind a space. So one loop over the words writes
//! every kind, and where memory ends it, a front of the line stands there.

ghost use Rattle.std.specs.Prelude.{◌≡◌, ◌++◌, ◌∷◌, [], OnOk, OnErr, map, decimal};
ghost use Rattle.std.specs.Fmt.{signed_decimal};
ghost use Rattle.tail_text.specs.Parts.{space};
ghost use Rattle.branch_marks.specs.Events.{IsNotable, IsLineFact};
ghost use Rattle.cert_lines.specs.Grammar.{IsLine};
ghost use Rattle.cert_lines.specs.Spelling.{behind, spaced, spelling, event_words, label_words, fact_words, claim_line_words};
ghost use Rattle.cert_lines.specs.inside.Writing.{AddsFront, word_text};

use crate::cert_line::CertLine;
use branch_marks::{Event, Fact, Pair};
use tail_book::{Claim, Memory};
use tail_text::Line;

/// A word that stands behind others: a number, a value that may be negative, or a hyphen for a cost that is not there.
#[derive(Clone, Copy)]
enum Word {
    Number(u64),
    Value(i64),
    Hyphen,
}

/// Appends the spelling of a line, without a newline. For want of memory a front of it was appended.
pub fn write_line(cert: &CertLine, line: &mut Line) -> Result<(), Memory>
    requires { IsLine cert.now }
    ensures ok { OnOk result (line.new ≡ line.old ++ spelling cert.now) }
    ensures memory { OnErr result (AddsFront line.old line.new (spelling cert.now)) }
{
    match cert {
        CertLine::Header { version, n, m, c } => {
            let numbers = [
                Word::Number(*version as u64),
                Word::Number(*n as u64),
                Word::Number(*m as u64),
                Word::Number(*c as u64),
            ];
            write_words(b"tailcert", &numbers, line)
        }
        CertLine::Event(event) => write_event(event, line),
        CertLine::Lean => line.text(b"lean"),
        CertLine::Plan => line.text(b"plan"),
        CertLine::Fly(a, k) => write_pair(b"fly", *a, *k, line),
        CertLine::Claim(claim) => write_claim(claim, line),
    }
}

fn write_event(event: &Event, line: &mut Line) -> Result<(), Memory>
    requires { IsNotable event.now }
    ensures ok { OnOk result (line.new ≡ line.old ++ spaced (event_words event.now)) }
    ensures memory { OnErr result (AddsFront line.old line.new (spaced (event_words event.now))) }
{
    match event {
        Event::Fact(fact) => write_fact(fact, line),
        Event::Split(Pair::Fly(k, a)) => write_pair(b"split fly", *k, *a, line),
        Event::Split(Pair::Link(a, b)) => write_pair(b"split link", *a, *b, line),
        Event::Hole(a) => write_words(b"hole", &[Word::Number(*a as u64)], line),
        Event::Stuck(k) => write_words(b"stuck", &[Word::Number(*k as u64)], line),
        Event::Bound => line.text(b"bound"),
        Event::Dual(a, v) => write_value(b"dual", *a, v, line),
        Event::Cover(k, v) => write_value(b"cover", *k, v, line),
        Event::Label {
            at,
            weight,
            counters,
        } => write_label(*at, weight, counters.as_slice(), line),
    }
}

fn write_label(at: u32, weight: &i64, counters: &[i64], line: &mut Line) -> Result<(), Memory>
    ensures ok { OnOk result (line.new ≡ line.old ++ spaced (label_words at weight.now counters.now)) }
    ensures memory { OnErr result (AddsFront line.old line.new (spaced (label_words at weight.now counters.now))) }
{
    if let Err(Memory) = write_value(b"label", at, weight, line) {
        return Err(Memory);
    }
    write_counters(counters, line)
}

fn write_fact(fact: &Fact, line: &mut Line) -> Result<(), Memory>
    requires { IsLineFact fact.now }
    ensures ok { OnOk result (line.new ≡ line.old ++ spaced (fact_words fact.now)) }
    ensures memory { OnErr result (AddsFront line.old line.new (spaced (fact_words fact.now))) }
{
    match fact {
        Fact::Bar(k, a) => write_pair(b"bar", *k, *a, line),
        Fact::Must(k, a) => write_pair(b"must", *k, *a, line),
        Fact::Cut(a, b) => write_pair(b"cut", *a, *b, line),
        Fact::Tie(_, _) => Ok(()),
    }
}

fn write_claim(claim: &Claim, line: &mut Line) -> Result<(), Memory>
    ensures ok { OnOk result (line.new ≡ line.old ++ spaced (claim_line_words claim.now)) }
    ensures memory { OnErr result (AddsFront line.old line.new (spaced (claim_line_words claim.now))) }
{
    match claim {
        Claim::Optimal(cost) => write_words(b"claim optimal", &[Word::Number(*cost)], line),
        Claim::Infeasible => line.text(b"claim infeasible"),
        Claim::Limit {
            low,
            high: Some(high),
        } => {
            let bounds = [Word::Number(*low), Word::Number(*high)];
            write_words(b"claim limit", &bounds, line)
        }
        Claim::Limit { low, high: None } => {
            let bound = [Word::Number(*low), Word::Hyphen];
            write_words(b"claim limit", &bound, line)
        }
    }
}

fn write_pair(head: &[u8], a: u32, b: u32, line: &mut Line) -> Result<(), Memory>
    ensures ok { OnOk result (line.new ≡ line.old ++ (head.now ++ behind (decimal a ∷ decimal b ∷ []))) }
    ensures memory { OnErr result (AddsFront line.old line.new (head.now ++ behind (decimal a ∷ decimal b ∷ []))) }
{
    write_words(
        head,
        &[Word::Number(a as u64), Word::Number(b as u64)],
        line,
    )
}

fn write_value(head: &[u8], a: u32, value: &i64, line: &mut Line) -> Result<(), Memory>
    ensures ok { OnOk result (line.new ≡ line.old ++ (head.now ++ behind (decimal a ∷ signed_decimal value.now ∷ []))) }
    ensures memory { OnErr result (AddsFront line.old line.new (head.now ++ behind (decimal a ∷ signed_decimal value.now ∷ []))) }
{
    write_words(head, &[Word::Number(a as u64), Word::Value(*value)], line)
}

// The first words, and the others behind them.
fn write_words(head: &[u8], words: &[Word], line: &mut Line) -> Result<(), Memory>
    ensures ok { OnOk result (line.new ≡ line.old ++ (head.now ++ behind (map word_text words.now))) }
    ensures memory { OnErr result (AddsFront line.old line.new (head.now ++ behind (map word_text words.now))) }
{
    if let Err(Memory) = line.text(head) {
        return Err(Memory);
    }
    write_behind(words, line)
}

fn write_behind(words: &[Word], line: &mut Line) -> Result<(), Memory>
    ensures ok { OnOk result (line.new ≡ line.old ++ behind (map word_text words.now)) }
    ensures memory { OnErr result (AddsFront line.old line.new (behind (map word_text words.now))) }
{
    for word in words {
        if let Err(Memory) = write_word(word, line) {
            return Err(Memory);
        }
    }
    Ok(())
}

fn write_counters(counters: &[i64], line: &mut Line) -> Result<(), Memory>
    ensures ok { OnOk result (line.new ≡ line.old ++ behind (map signed_decimal counters.now)) }
    ensures memory { OnErr result (AddsFront line.old line.new (behind (map signed_decimal counters.now))) }
{
    for counter in counters {
        if let Err(Memory) = write_counter(counter, line) {
            return Err(Memory);
        }
    }
    Ok(())
}

fn write_counter(counter: &i64, line: &mut Line) -> Result<(), Memory>
    ensures ok { OnOk result (line.new ≡ line.old ++ (space ∷ signed_decimal counter.now)) }
    ensures memory { OnErr result (AddsFront line.old line.new (space ∷ signed_decimal counter.now)) }
{
    write_word(&Word::Value(*counter), line)
}

// A space, and the word.
fn write_word(word: &Word, line: &mut Line) -> Result<(), Memory>
    ensures ok { OnOk result (line.new ≡ line.old ++ (space ∷ word_text word.now)) }
    ensures memory { OnErr result (AddsFront line.old line.new (space ∷ word_text word.now)) }
{
    if let Err(Memory) = line.text(b" ") {
        return Err(Memory);
    }
    match word {
        Word::Number(n) => line.unsigned(*n),
        Word::Value(v) => line.signed(*v),
        Word::Hyphen => line.text(b"-"),
    }
}
