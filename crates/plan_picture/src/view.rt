//! What a picture shows beside the plan, where asked for: the curfews of one airport, what left its home in a plan that was
//! published before, a strip for each day, and a page around the picture.

ghost use Rattle.std.specs.Prelude.{◌≡◌};
ghost use Rattle.plan_picture.specs.Ports.{port_named};

use std::marker::Model;
use tail_book::Book;

/// What a picture shows beside the plan. Contracts see the record of its fields, the homes as a list.
#[derive(Debug, Drop)]
pub struct View {
    /// The airport whose curfews are drawn, by number.
    pub airport: Option<u32>,
    /// The homes of activities, by number, where a plan was published before: what has left its home is marked.
    pub homes: Option<Vec<Option<u32>>>,
    /// Whether each day has a strip of its own.
    pub by_day: bool,
    /// Whether the picture stands on a page of its own.
    pub html: bool,
}

impl Model for View {
    ghost use Rattle.std.specs.Prelude.{option_map};
    ghost use Rattle.plan_picture.specs.View.{ViewSeen};

    ghost Value = { ViewSeen };

    ghost view = { λ v. record { airport = v.airport; homes = option_map (λ list. list.items) v.homes; by_day = v.by_day; html = v.html } };
}

/// The number of the airport of a name, where the book has one.
pub fn port_named(book: &Book, name: &[u8]) -> Option<u32>
    ensures { result ≡ port_named book.now name.now }
{
    for p in 0..book.rules.airports.len() {
        if book.rules.airports[p].name.as_bytes() == name {
            return Some(p as u32);
        }
    }
    None
}
