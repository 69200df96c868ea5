//! What a route has of the asked activities beyond the brought ones.

ghost use Rattle.std.specs.Prelude.{◌≡◌, ◌≤◌, length};
ghost use Rattle.plan_shortage.specs.Shortage.{had, surplus};

use tail_book::Route;

// How many of a route's activities are in a list.
fn had(list: &[u32], route: &[u32]) -> usize
    ensures value { result ≡ had list.now route.now }
    ensures most { result ≤ length route.now }
{
    route.iter().filter(|a| list.contains(*a)).count()
}

/// How many of the asked activities a route has, less how many of the brought ones.
pub fn surplus(asked: &[u32], brought: &[u32], route: &Route) -> i64
    ensures { result ≡ surplus asked.now brought.now route.now }
{
    had(asked, &route.0) as i64 - had(brought, &route.0) as i64
}
