//! How often every legal plan uses a quota at least. What a matching says is checked, so nothing rests on how it was found.

ghost use Rattle.std.specs.Prelude.{◌≡◌, ◌≤◌, ◌^◌, ◌+ℤ◌, length, IfOk};
ghost use Rattle.tail_book.specs.Sums.{total};
ghost use Rattle.connection_net.specs.Net.{net_of};
ghost use Rattle.quota_demands.specs.UsesAtLeast.{UsesAtLeast};

use crate::laws::potentials_bound;
use crate::matching::matched;
use crate::potentials::{Potentials, are_potentials, total};
use connection_net::Net;
use quota_rows::Quota;
use std::alloc::Global;
use tail_book::laws::every_book_is_sound;
use tail_book::{Book, Memory};

// What they come to.
fn sum_of(found: &Potentials) -> i128
    requires coming { length found.now.coming.items ≤ 2 ^ 32 }
    requires leaving { length found.now.leaving.items ≤ 2 ^ 32 }
    requires carried { length found.now.carried.items ≤ 2 ^ 32 }
    ensures { result ≡ (total found.now.coming.items +ℤ (total found.now.leaving.items +ℤ total found.now.carried.items)) }
{
    total(&found.coming) + (total(&found.leaving) + total(&found.carried))
}

// What potentials show of a quota; nothing where the numbers are none.
fn shown(book: &Book, net: &Net, quota: &Quota, found: &Potentials) -> u64
    requires { net.now ≡ net_of book.now }
    ensures { UsesAtLeast book.now quota.now result }
{
    every_book_is_sound(book);
    potentials_bound();
    if !are_potentials(book, net, quota, found) {
        return 0;
    }
    match u64::try_from(sum_of(found)) {
        Ok(least) => least,
        Err(_) => 0,
    }
}

/// How often every legal plan uses a quota at least. It may be more often than that.
pub fn least_uses(alloc: Global, book: &Book, net: &Net, quota: &Quota) -> Result<u64, Memory>
    requires { net.now ≡ net_of book.now }
    ensures { IfOk result (UsesAtLeast book.now quota.now) }
{
    let found = matched(alloc, book, net, quota)?;
    Ok(shown(book, net, quota, &found))
}
