//! The lightest row at an activity.

ghost use Rattle.std.specs.Prelude.{◌<◌, length};
ghost use Rattle.route_search.specs.inside.Reach.{WeighNoLess};

use label_store::Store;
use label_store::laws::every_store_is_sound;
use pricing::weight_of;

/// What the lightest row at an activity weighs, in thousandths of a cost unit: the greatest number where there is none.
pub fn lightest(store: &Store, x: u32) -> i64
    requires { x < length store.now.buckets }
    ensures { WeighNoLess store.now x result }
{
    every_store_is_sound(store);
    let mut least = i64::MAX;
    for i in 0..store.count(x as usize) {
        let weight = weight_of(store, store.at(x as usize, i));
        least = least.min(weight);
    }
    least
}
