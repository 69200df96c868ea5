//! Routes and plans, as lists of numbers. Whether they are legal is no matter of the types: the definitions of legality say it.

ghost use Rattle.std.specs.Str.{bytes_eq};
ghost use Rattle.std.specs.Cmp.Lexicographic.{pointwise};
ghost use Rattle.std.specs.Cmp.Rules.{comparing};
ghost use Rattle.std.proofs.Common.{rules};

use std::marker::Model;

/// The activities of one aircraft, in the order in which it flies them. Contracts see the list of their numbers.
#[derive(Debug, Drop)]
pub struct Route(pub Vec<u32>);

impl Model for Route {
    ghost use Rattle.std.specs.Prelude.{ℕ, List};

    ghost Value = { List ℕ };

    ghost view = { λ r. r.0.items };
}

/// One route for each aircraft, in the book's order. Contracts see the list of routes.
#[derive(Debug, Drop)]
pub struct Plan(pub Vec<Route>);

impl Model for Plan {
    ghost use Rattle.std.specs.Prelude.{ℕ, List};

    ghost Value = { List (List ℕ) };

    ghost view = { λ p. p.0.items };
}

impl PartialEq for Route {
    ghost eq = { bytes_eq };

    ghost laws = { Prim.search (comparing, rules) };

    fn eq(&self, other: &Route) -> bool {
        self.0.as_slice() == other.0.as_slice()
    }
}

impl PartialEq for Plan {
    ghost eq = { pointwise bytes_eq };

    ghost laws = { Prim.search (comparing, rules) };

    fn eq(&self, other: &Plan) -> bool {
        self.0.as_slice() == other.0.as_slice()
    }
}
