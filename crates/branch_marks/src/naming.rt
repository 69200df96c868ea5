//! What a fact names for an activity, and what is named there once the last fact is taken back.
//!
//! No fact comes twice, so where one number is named, one fact names it. Only where several are named are the facts that
//! are left gone over.

ghost use Rattle.std.specs.Prelude.{◌≡◌, ◌<◌, ◌++◌, ◌∷◌, [], ℕ, false, length, IfSome, IfNone, None, Some};
ghost use Rattle.branch_marks.specs.FactTests.{has_fact};
ghost use Rattle.branch_marks.specs.inside.Named.{named_by, one_at, with_named};
ghost use Rattle.branch_marks.specs.inside.MarkTables.{IsNamedTable, NamesBelow, names_at};

use crate::Fact;
use crate::named::Named;
use crate::trail::Trail;

/// What facts name for an activity.
#[derive(Clone, Copy)]
pub enum Naming {
    /// The activity that a Tie brings behind it.
    Next,
    /// The activity that a Tie brings before it.
    Previous,
    /// The aircraft that a Must gives it to.
    Carrier,
}

impl Naming {
    // For which activity a fact names a number, and which one.
    fn named(self, fact: Fact) -> Option<(u32, u32)>
        ensures one { IfSome result (λ one. (a : ℕ) → names_at self a fact ≡ one_at one.0 one.1 a) }
        ensures within { IfSome result (λ one. (n : ℕ) → NamesBelow n fact → one.0 < n) }
        ensures none { IfNone result ((a : ℕ) → names_at self a fact ≡ None) }
    {
        match self {
            Naming::Next => match fact {
                Fact::Tie(a, b) => Some((a, b)),
                Fact::Bar(_, _) | Fact::Must(_, _) | Fact::Cut(_, _) => None,
            },
            Naming::Previous => match fact {
                Fact::Tie(a, b) => Some((b, a)),
                Fact::Bar(_, _) | Fact::Must(_, _) | Fact::Cut(_, _) => None,
            },
            Naming::Carrier => match fact {
                Fact::Must(k, a) => Some((a, k)),
                Fact::Bar(_, _) | Fact::Cut(_, _) | Fact::Tie(_, _) => None,
            },
        }
    }

    // What is named for an activity once a fact more is there.
    fn with(self, so_far: Named, fact: Fact, a: u32) -> Named
        ensures { result ≡ with_named so_far (names_at self a fact) }
    {
        match self.named(fact) {
            Some((c, v)) if c == a => so_far.with(v),
            _ => so_far,
        }
    }

    // What facts name for an activity.
    fn of_facts(self, facts: &Trail, a: u32) -> Named
        ensures { result ≡ named_by (names_at self a) facts.now }
    {
        let mut named = Named::Nothing;
        for i in 0..facts.len() {
            named = self.with(named, facts.at(i), a);
        }
        named
    }
}

/// Takes the last fact back, which the ones that are left do not have: what they name.
pub fn undo_named(named: &mut Vec<Named>, naming: Naming, left: &Trail, fact: Fact)
    requires table { IsNamedTable (length named.old.items) (names_at naming) (left.now ++ fact ∷ []) named.old.items }
    requires new { has_fact left.now fact ≡ false }
    requires fact { NamesBelow (length named.old.items) fact }
    ensures { IsNamedTable (length named.old.items) (names_at naming) left.now named.new.items }
{
    if let Some((a, _)) = naming.named(fact) {
        match named[a as usize] {
            Named::Several => named[a as usize] = naming.of_facts(left, a),
            Named::Nothing | Named::One(_) => named[a as usize] = Named::Nothing,
        }
    }
}
