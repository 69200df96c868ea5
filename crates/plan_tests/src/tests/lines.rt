//! Lines of each kind, at the ends of their numbers, and texts that miss the grammar by one thing.

use cert_lines::{read_line, write_line};
use std::test::Fail;
use tail_text::Line;

// Whether a text is read as a line that is written so again, byte for byte.
fn is_written_again(line: &mut Line, text: &str) -> bool {
    match read_line(text.as_bytes()) {
        Ok(read) => {
            line.clear();
            write_line(&read, line).is_ok() && line.bytes() == text.as_bytes()
        }
        Err(_) => false,
    }
}

// Lines of each kind; the numbers stand at their ends.
const SPELLED: &[&str] = &[
    "tailcert 1 4000 200 6",
    "tailcert 1 0 0 0",
    "tailcert 2 4000 200 6",
    "bar 0 1",
    "must 4294967295 0",
    "cut 0 4294967295",
    "hole 1",
    "stuck 199",
    "bound",
    "lean",
    "dual 0 -1",
    "dual 3999 2305843009213693952",
    "cover 0 -2305843009213693952",
    "cover 1 0",
    "label 0 -60000",
    "label 4294967295 -2305843009213693952 0 1 2 3 4 2305843009213693952",
    "split fly 0 1",
    "split link 7 8",
    "plan",
    "fly 0 1",
    "claim optimal 0",
    "claim optimal 18446744073709551615",
    "claim infeasible",
    "claim limit 0 1",
    "claim limit 18446744073709551614 18446744073709551615",
    "claim limit 0 -",
];

fn spelled() -> &'static [&'static str] {
    SPELLED
}

#[test]
fn lines_have_one_spelling(rt: HostRuntime) -> Result<(), Fail> {
    let mut line = Line::new(rt.alloc())?;
    for &text in spelled() {
        assert!(rt; is_written_again(&mut line, text), "at {text}");
    }
    Ok(())
}

// A line is nothing else: no other word, sign, zero in front, space, end of line or number of words.
const NEAR_MISSES: &[&str] = &[
    "",
    " ",
    "bound\r",
    "bound ",
    " bound",
    "Bound",
    "bounds",
    "bound 0",
    "tailcert 1 1 1",
    "lean 0",
    "leans",
    "Lean",
    "tailcert 0 1 1 0",
    "tailcert 3 1 1 0",
    "tailcert 01 1 1 0",
    "tailcert 02 1 1 0",
    "tailcert 21 1 1 0",
    "tailcert 2 1 1",
    "tailcert 1 1 1 0 0",
    "tailcert 1 4294967296 1 0",
    "bar 0",
    "bar 0 1 2",
    "bar 00 1",
    "bar 0 01",
    "bar +0 1",
    "bar -1 1",
    "bar  0 1",
    "bar 0\t1",
    "must 4294967296 0",
    "tie 0 1",
    "cut 0 x",
    "hole",
    "hole 0 0",
    "stuck -0",
    "dual 0 0",
    "dual 0 -0",
    "dual 0 +1",
    "dual 0 0180000",
    "dual 0 -01",
    "dual 0 -",
    "dual 0 2305843009213693953",
    "cover 0 -2305843009213693953",
    "cover 0",
    "label 0",
    "label 0 0 -1",
    "label 0 0 00",
    "label 0 0 2305843009213693953",
    "label 0 0 1 2 3 4 5 6 7",
    "split fly 0",
    "split tie 0 1",
    "split 0 1",
    "plan 0",
    "fly 0",
    "claim",
    "claim optimal",
    "claim optimal -1",
    "claim optimal 18446744073709551616",
    "claim infeasible 0",
    "claim limit 5 5",
    "claim limit 6 5",
    "claim limit 5",
    "claim limit - 5",
    "claim limit 5 - ",
];

fn near_misses() -> &'static [&'static str] {
    NEAR_MISSES
}

#[test]
fn near_misses_are_bad(rt: HostRuntime) -> Result<(), Fail> {
    for &text in near_misses() {
        assert!(rt; read_line(text.as_bytes()).is_err(), "at {text}");
    }
    Ok(())
}

// No line is longer than 157 bytes, so one of 200 and one of 201 are bad alike.
#[test]
fn long_texts_are_bad(rt: HostRuntime) -> Result<(), Fail> {
    let zeros = [b'0'; 201];
    assert!(rt; read_line(&zeros[..200]).is_err());
    assert!(rt; read_line(&zeros).is_err());
    Ok(())
}
