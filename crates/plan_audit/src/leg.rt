//! The legs of a plan: each activity of a route, and where its aircraft comes from.
//!
//! Who may fly what, curfews and links are rules about one leg each, and counters go from leg to leg. So the legs are
//! made once, in one pass over the names, and each rule is a pass over them.

ghost use Rattle.std.specs.Prelude.{◌≡◌, IfOk};
ghost use Rattle.plan_audit.specs.Kept.{legs_met};

use crate::met::Met;
use std::alloc::Global;
use tail_book::{Memory, Place};

/// An activity of a route, with its aircraft and the place before it. Aircraft and activity are numbers in the book.
#[derive(Clone, Copy, PartialEq, Eq)]
pub struct Leg {
    pub tail: u32,
    pub from: Place,
    pub activity: u32,
}

/// The legs of the kept plan, in reading order.
pub fn legs_in(alloc: Global, met: &[Met]) -> Result<Vec<Leg>, Memory>
    ensures { IfOk result (λ legs. legs.items ≡ legs_met met.now) }
{
    let mut legs = Vec::new(alloc);
    let (mut tail, mut from) = (0, Place::Carry);
    for name in met {
        match *name {
            Met::Unknown(_) | Met::Twice(_) => {}
            Met::Tail(k) => {
                tail = k;
                from = Place::Carry;
            }
            Met::Activity(b) => {
                legs.push(Leg {
                    tail,
                    from,
                    activity: b,
                })?;
                from = Place::After(b);
            }
        }
    }
    Ok(legs)
}
