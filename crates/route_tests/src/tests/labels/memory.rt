//! Offers for which memory may run out. The test here holds where any one allocation fails, and where none does;
//! `tests/each_allocation` runs it with each of them failing in turn.

use super::chance::first_wrong_of;
use std::test::Fail;

#[test]
fn labels_stay_where_memory_is_wanting(rt: HostRuntime) -> Result<(), Fail> {
    if let Ok(wrong) = first_wrong_of(rt.alloc(), 7, 60) {
        assert!(rt; wrong.is_none(), "offer {wrong:?}");
    }
    Ok(())
}
