//! Softened coordinate ascent over a pool of routes: what moves duals to where the Lagrangian sum is large.
//!
//! Plain coordinate ascent stops where no single dual helps, far below the best sum. Where each aircraft's least weight is
//! softened, at a temperature, into a mixture of its light routes, the sum has no corners, and moving one dual after the
//! other leads to its top. Then the temperature falls. All of this only suggests duals: what counts is what exact pricing
//! says of them, and the best of those are kept.
#![tactic(auto)]

mod ascent;
mod climb;
mod climber;
mod demand;
mod groups;
mod mixture;
mod powers;
mod sides;

pub use ascent::Ascent;
pub use climber::Climber;
pub use demand::{Share, WHOLE, part_of, rise};
pub use groups::{Groups, Member};
pub use powers::{OCTAVE, ONE, Powers};
pub use sides::Side;
