//! The first word of a line, which says what the line is. Each kind of line has its own; only a split and a claim need
//! their second word too.

ghost use Rattle.std.specs.Prelude.{◌≡◌};
ghost use Rattle.std.specs.Str.{bytes_eq};
ghost use Rattle.cert_lines.specs.Keyword.{key_text, keyword_of, seldom_keyword_of};

/// What a line is.
#[derive(Clone, Copy, PartialEq, Eq)]
pub enum Keyword {
    Tailcert,
    Bar,
    Must,
    Cut,
    Hole,
    Stuck,
    Bound,
    Lean,
    Dual,
    Cover,
    Label,
    Split,
    Plan,
    Fly,
    Claim,
}

/// The word that stands first in such lines.
pub fn key_text(key: Keyword) -> &'static [u8]
    ensures { result.now ≡ key_text key }
{
    match key {
        Keyword::Tailcert => b"tailcert",
        Keyword::Bar => b"bar",
        Keyword::Must => b"must",
        Keyword::Cut => b"cut",
        Keyword::Hole => b"hole",
        Keyword::Stuck => b"stuck",
        Keyword::Bound => b"bound",
        Keyword::Lean => b"lean",
        Keyword::Dual => b"dual",
        Keyword::Cover => b"cover",
        Keyword::Label => b"label",
        Keyword::Split => b"split",
        Keyword::Plan => b"plan",
        Keyword::Fly => b"fly",
        Keyword::Claim => b"claim",
    }
}

/// What a line is that begins with this word. Most lines of a certificate are labels, so these are tried first.
pub fn keyword_of(word: &[u8]) -> Option<Keyword>
    ensures { result ≡ keyword_of word.now }
{
    if is_text(word, Keyword::Label) {
        return Some(Keyword::Label);
    }
    if is_text(word, Keyword::Cover) {
        return Some(Keyword::Cover);
    }
    if is_text(word, Keyword::Dual) {
        return Some(Keyword::Dual);
    }
    if is_text(word, Keyword::Bar) {
        return Some(Keyword::Bar);
    }
    if is_text(word, Keyword::Must) {
        return Some(Keyword::Must);
    }
    if is_text(word, Keyword::Cut) {
        return Some(Keyword::Cut);
    }
    if is_text(word, Keyword::Bound) {
        return Some(Keyword::Bound);
    }
    seldom_keyword_of(word)
}

// The same of the words that stand in few lines.
fn seldom_keyword_of(word: &[u8]) -> Option<Keyword>
    ensures { result ≡ seldom_keyword_of word.now }
{
    if is_text(word, Keyword::Split) {
        return Some(Keyword::Split);
    }
    if is_text(word, Keyword::Lean) {
        return Some(Keyword::Lean);
    }
    if is_text(word, Keyword::Hole) {
        return Some(Keyword::Hole);
    }
    if is_text(word, Keyword::Stuck) {
        return Some(Keyword::Stuck);
    }
    if is_text(word, Keyword::Fly) {
        return Some(Keyword::Fly);
    }
    if is_text(word, Keyword::Plan) {
        return Some(Keyword::Plan);
    }
    if is_text(word, Keyword::Claim) {
        return Some(Keyword::Claim);
    }
    if is_text(word, Keyword::Tailcert) {
        return Some(Keyword::Tailcert);
    }
    None
}

fn is_text(word: &[u8], key: Keyword) -> bool
    ensures { result ≡ bytes_eq word.now (key_text key) }
{
    word == key_text(key)
}
