//! What facts let through, as the definitions have it: a walk over all of them, plain and slow.

use branch_marks::Fact;
use tail_book::Place;

fn is_before(from: Place, a: u32) -> bool {
    match from {
        Place::Carry => true,
        Place::After(x) => x < a,
    }
}

fn lets_fly(fact: &Fact, k: u32, a: u32) -> bool {
    match *fact {
        Fact::Bar(j, c) => j != k || c != a,
        Fact::Must(j, c) => c != a || j == k,
        _ => true,
    }
}

fn lets_go(fact: &Fact, k: u32, from: Place, b: u32) -> bool {
    match *fact {
        Fact::Bar(_, _) => true,
        Fact::Must(j, c) => j != k || !is_before(from, c) || b <= c,
        Fact::Cut(c, d) => from != Place::After(c) || d != b,
        Fact::Tie(c, d) => (from == Place::After(c)) == (d == b),
    }
}

fn lets_end(fact: &Fact, k: u32, from: Place) -> bool {
    match *fact {
        Fact::Must(j, c) => j != k || !is_before(from, c),
        Fact::Tie(c, _) => from != Place::After(c),
        _ => true,
    }
}

// Whether the facts let an aircraft fly an activity.
pub fn let_fly(facts: &[Fact], k: u32, a: u32) -> bool {
    for fact in facts {
        if !lets_fly(fact, k, a) {
            return false;
        }
    }
    true
}

// Whether they let it go from a place to an activity.
pub fn let_go(facts: &[Fact], k: u32, from: Place, b: u32) -> bool {
    for fact in facts {
        if !lets_go(fact, k, from, b) {
            return false;
        }
    }
    true
}

// Whether they let its route end at a place.
pub fn let_end(facts: &[Fact], k: u32, from: Place) -> bool {
    for fact in facts {
        if !lets_end(fact, k, from) {
            return false;
        }
    }
    true
}
