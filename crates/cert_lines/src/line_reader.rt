//! Lines, read.
//!
//! The first word says what a line is, and so how many words follow and what they are. A number has one spelling, and
//! so has a line: what is read here is what `write_line` writes.

ghost use Rattle.std.specs.Prelude.{◌≡◌, IfOk, OnErr};
ghost use Rattle.std.specs.Option.{ok_or};
ghost use Rattle.cert_lines.specs.BadLine.{bad_line};
ghost use Rattle.cert_lines.specs.declared.cert_line.CertLine.{CertLine};
ghost use Rattle.cert_lines.specs.OneSpelling.{IsSpelling};
ghost use Rattle.cert_lines.specs.Reading.{line_of, line_in, line_with, event_with, header_in, version_in, dual_in, label_in, split_in, claim_in, cost_in, bounds_in, limit_of};

use crate::cert_line::{BadLine, CertLine};
use crate::keyword::{Keyword, keyword_of};
use crate::laws::{read_lines_are_spelled, spelled_lines_are_read};
use crate::words::{counters_in, large, number_and_value, one_number, small, two_numbers, value};
use branch_marks::{Event, Fact, Pair};
use tail_book::Claim;
use tail_text::Parts;

/// The line that a text without its newline is. `BadLine` comes exactly where no line is spelled so. It takes no memory.
pub fn read_line(text: &[u8]) -> Result<CertLine, BadLine>
    ensures value { result ≡ ok_or (line_of text.now) bad_line }
    ensures spelled { IfOk result (IsSpelling text.now) }
    ensures bad { OnErr result ((line : CertLine) → ¬ IsSpelling text.now line) }
{
    read_lines_are_spelled();
    spelled_lines_are_read();
    let mut words = Parts::new(text, b' ');
    match line_in(&mut words) {
        Some(line) => Ok(line),
        None => Err(BadLine),
    }
}

fn line_in(words: &mut Parts<'_>) -> Option<CertLine>
    ensures { result ≡ line_in words.old }
{
    let first = words.take()?;
    let key = keyword_of(first)?;
    line_with(key, words)
}

// The line that begins with this keyword.
fn line_with(key: Keyword, words: &mut Parts<'_>) -> Option<CertLine>
    ensures { result ≡ line_with key words.old }
{
    match key {
        Keyword::Tailcert => header_in(words),
        Keyword::Lean => words.is_done().then_some(CertLine::Lean),
        Keyword::Plan => words.is_done().then_some(CertLine::Plan),
        Keyword::Fly => {
            let (a, k) = two_numbers(words)?;
            Some(CertLine::Fly(a, k))
        }
        Keyword::Claim => Some(CertLine::Claim(claim_in(words)?)),
        _ => Some(CertLine::Event(event_with(key, words)?)),
    }
}

// The event whose line begins with this keyword.
fn event_with(key: Keyword, words: &mut Parts<'_>) -> Option<Event>
    ensures { result ≡ event_with key words.old }
{
    match key {
        Keyword::Bar => {
            let (k, a) = two_numbers(words)?;
            Some(Event::Fact(Fact::Bar(k, a)))
        }
        Keyword::Must => {
            let (k, a) = two_numbers(words)?;
            Some(Event::Fact(Fact::Must(k, a)))
        }
        Keyword::Cut => {
            let (a, b) = two_numbers(words)?;
            Some(Event::Fact(Fact::Cut(a, b)))
        }
        Keyword::Hole => Some(Event::Hole(one_number(words)?)),
        Keyword::Stuck => Some(Event::Stuck(one_number(words)?)),
        Keyword::Bound => words.is_done().then_some(Event::Bound),
        Keyword::Dual => dual_in(words),
        Keyword::Cover => {
            let (k, v) = number_and_value(words)?;
            Some(Event::Cover(k, v))
        }
        Keyword::Label => label_in(words),
        Keyword::Split => Some(Event::Split(split_in(words)?)),
        Keyword::Tailcert | Keyword::Lean | Keyword::Plan | Keyword::Fly | Keyword::Claim => None,
    }
}

fn header_in(words: &mut Parts<'_>) -> Option<CertLine>
    ensures { result ≡ header_in words.old }
{
    let first = words.take()?;
    let activities = words.take()?;
    let (m, c) = two_numbers(words)?;
    let version = version_in(first)?;
    let n = small(activities)?;
    Some(CertLine::Header { version, n, m, c })
}

// There are two versions.
fn version_in(word: &[u8]) -> Option<u8>
    ensures { result ≡ version_in word.now }
{
    if word == b"1".as_slice() {
        return Some(1);
    }
    if word == b"2".as_slice() {
        return Some(2);
    }
    None
}

// A dual of 0 has no line.
fn dual_in(words: &mut Parts<'_>) -> Option<Event>
    ensures { result ≡ dual_in words.old }
{
    let (a, v) = number_and_value(words)?;
    if v == 0 {
        return None;
    }
    Some(Event::Dual(a, v))
}

fn label_in(words: &mut Parts<'_>) -> Option<Event>
    ensures { result ≡ label_in words.old }
{
    let first = words.take()?;
    let second = words.take()?;
    let at = small(first)?;
    let weight = value(second)?;
    let counters = counters_in(words)?;
    Some(Event::Label {
        at,
        weight,
        counters,
    })
}

fn split_in(words: &mut Parts<'_>) -> Option<Pair>
    ensures { result ≡ split_in words.old }
{
    let kind = words.take()?;
    let (first, second) = two_numbers(words)?;
    if kind == b"fly".as_slice() {
        return Some(Pair::Fly(first, second));
    }
    if kind == b"link".as_slice() {
        return Some(Pair::Link(first, second));
    }
    None
}

fn claim_in(words: &mut Parts<'_>) -> Option<Claim>
    ensures { result ≡ claim_in words.old }
{
    let kind = words.take()?;
    if kind == b"infeasible".as_slice() {
        return words.is_done().then_some(Claim::Infeasible);
    }
    if kind == b"optimal".as_slice() {
        return Some(Claim::Optimal(cost_in(words)?));
    }
    if kind == b"limit".as_slice() {
        return bounds_in(words);
    }
    None
}

// The one cost that is left.
fn cost_in(words: &mut Parts<'_>) -> Option<u64>
    ensures { result ≡ cost_in words.old }
{
    match (words.take(), words.take()) {
        (Some(cost), None) => large(cost),
        _ => None,
    }
}

// A lower bound and a larger cost, or a lower bound alone.
fn bounds_in(words: &mut Parts<'_>) -> Option<Claim>
    ensures { result ≡ bounds_in words.old }
{
    match (words.take(), words.take(), words.take()) {
        (Some(low), Some(high), None) => limit_of(large(low)?, high),
        _ => None,
    }
}

// The limit from a lower bound to the cost that a word writes, or a hyphen for none.
fn limit_of(low: u64, word: &[u8]) -> Option<Claim>
    ensures { result ≡ limit_of low word.now }
{
    if word == b"-".as_slice() {
        return Some(Claim::Limit { low, high: None });
    }
    let high = large(word)?;
    if low >= high {
        return None;
    }
    Some(Claim::Limit {
        low,
        high: Some(high),
    })
}
