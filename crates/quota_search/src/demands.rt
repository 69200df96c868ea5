//! Whether every legal plan uses a quota more often than it may: then nothing need be searched.

ghost use Rattle.std.specs.Prelude.{◌≡◌, IfOk, true};
ghost use Rattle.connection_net.specs.Net.{net_of};
ghost use Rattle.quota_rows.specs.KeptPlans.{HasNoKeptPlan};

use connection_net::Net;
use quota_demands::laws::used_too_often_leaves_no_plan;
use quota_demands::least_uses;
use quota_rows::Quota;
use std::alloc::Global;
use tail_book::{Book, Memory};

/// Whether one of the quotas is found that every legal plan uses more often than it may.
pub fn leave_no_plan(
    alloc: Global,
    book: &Book,
    net: &Net,
    quotas: &[Quota],
) -> Result<bool, Memory>
    requires { net.now ≡ net_of book.now }
    ensures { IfOk result (λ found. found ≡ true → HasNoKeptPlan book.now quotas.now) }
{
    used_too_often_leaves_no_plan();
    for q in 0..quotas.len() {
        let least = least_uses(alloc, book, net, &quotas[q])?;
        if least > quotas[q].most {
            return Ok(true);
        }
    }
    Ok(false)
}
