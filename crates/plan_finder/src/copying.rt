//! Copies that go their own way: of duals that move, and of routes that are judged.

ghost use Rattle.std.specs.Prelude.{◌≡◌, IfOk};

use std::alloc::Global;
use tail_book::{Duals, Memory, Route};

/// The same duals.
pub fn copy_of(duals: &Duals) -> Result<Duals, Memory>
    ensures { IfOk result (λ copied. copied.values ≡ duals.now.values) }
{
    Ok(Duals {
        values: duals.values.clone()?,
    })
}

/// The same routes.
pub fn same_routes(alloc: Global, routes: &[Route]) -> Result<Vec<Route>, Memory> {
    let mut copied = Vec::with_capacity(alloc, routes.len())?;
    for k in 0..routes.len() {
        let route = &routes[k];
        copied.push(Route(Vec::from_slice(alloc, &route.0)?))?;
    }
    Ok(copied)
}
