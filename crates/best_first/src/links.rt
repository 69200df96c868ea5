//! The facts of the nodes of a tree. Each is kept once, with where the one before it is, so that nodes share the facts that they have
//! in common, and a node costs its own steps alone.
//!
//! An end names the facts up to a link: one more than the link's number, and 0 for no fact.

ghost use Rattle.std.specs.Prelude.{◌≡◌, ◌≤◌, ◌∷◌, [], length, IfOk};
ghost use Rattle.best_first.specs.inside.Links.{AreLinks, facts_at, IsLinked};

use branch_marks::Fact;
use std::alloc::Global;
use tail_book::Memory;

/// A fact, and the end of the facts before it.
#[derive(Clone, Copy, Debug)]
pub struct Link {
    pub fact: Fact,
    pub before: usize,
}

/// The facts up to an end, in the order in which they came.
pub fn facts_to(alloc: Global, links: &[Link], end: usize) -> Result<Vec<Fact>, Memory>
    requires links { AreLinks links.now }
    requires end { end ≤ length links.now }
    ensures { IfOk result (λ facts. facts.items ≡ facts_at links.now end) }
{
    let mut facts = Vec::new(alloc);
    let mut at = end;
    'back: while at > 0 {
        let link = links[at - 1];
        facts.push(link.fact)?;
        at = link.before;
    }
    facts.reverse();
    Ok(facts)
}

/// Adds a fact behind those up to an end. The answer is its own end.
pub fn add_link(links: &mut Vec<Link>, end: usize, fact: Fact) -> Result<usize, Memory>
    requires links { AreLinks links.old.items }
    requires end { end ≤ length links.old.items }
    ensures { IfOk result (IsLinked links.old.items links.new.items end (fact ∷ [])) }
{
    links.push(Link { fact, before: end })?;
    Ok(links.len())
}

/// Adds facts, one behind the other, behind those up to an end. The answer is the end of the last.
pub fn add_links(links: &mut Vec<Link>, end: usize, facts: &[Fact]) -> Result<usize, Memory>
    requires links { AreLinks links.old.items }
    requires end { end ≤ length links.old.items }
    ensures { IfOk result (IsLinked links.old.items links.new.items end facts.now) }
{
    let mut last = end;
    for i in 0..facts.len() {
        last = add_link(links, last, facts[i])?;
    }
    Ok(last)
}
