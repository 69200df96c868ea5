//! Claims as they are printed: a word for what is claimed, and behind it the costs.

ghost use Rattle.std.specs.Prelude.{◌≡◌, ◌++◌, OnOk, decimal};
ghost use Rattle.tail_text.specs.ClaimWords.{claim_text, high_word};

use crate::Line;
use tail_book::{Claim, Memory};

/// Appends what a claim says, with no newline.
pub fn add_claim(claim: &Claim, line: &mut Line) -> Result<(), Memory>
    ensures { OnOk result (line.new ≡ line.old ++ claim_text claim.now) }
{
    match claim {
        Claim::Optimal(cost) => add_cost(b"optimal ", *cost, line),
        Claim::Infeasible => line.text(b"infeasible"),
        Claim::Limit { low, high } => {
            add_cost(b"limit ", *low, line)?;
            line.text(b" ")?;
            add_high(*high, line)
        }
    }
}

fn add_cost(front: &[u8], cost: u64, line: &mut Line) -> Result<(), Memory>
    ensures { OnOk result (line.new ≡ line.old ++ front.now ++ decimal cost) }
{
    line.text(front)?;
    line.unsigned(cost)
}

// The cost of the best plan, or a hyphen.
fn add_high(high: Option<u64>, line: &mut Line) -> Result<(), Memory>
    ensures { OnOk result (line.new ≡ line.old ++ high_word high) }
{
    match high {
        Some(high) => line.unsigned(high),
        None => line.text(b"-"),
    }
}
