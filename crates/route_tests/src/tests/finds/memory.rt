//! Plans for which memory may run out. The test here holds where any one allocation fails, and where none does;
//! `tests/each_allocation` runs it with each of them failing in turn.

use super::{AMPLE, EXCHANGED, Finds, FindsNear, Want};
use crate::tests::asks::{Case, first_wrong};
use crate::tests::books::ByHand;
use std::alloc::Global;
use std::process::{Abort, ExitCode, Termination};
use std::test::Fail;

// The least plan of two flights at once, whose routes are then in the pool. None where the one aircraft can't come back.
const FOUND: &[Case<Finds>] = &[
    (
        ByHand::AtOnce,
        &[],
        &[0, 0],
        Finds(AMPLE, EXCHANGED, Some(2)),
    ),
    (
        ByHand::Alone(31),
        &[],
        &[0, 0],
        Finds(AMPLE, Want::Nothing, None),
    ),
];

// The cheap plan near the dear one.
const NEAR: &[Case<FindsNear>] = &[(
    ByHand::AtOnce,
    &[],
    &[0, 0],
    FindsNear([&[0], &[1]], EXCHANGED),
)];

// All of these, one after the other.
fn are_answered(rt: &impl Abort, alloc: Global) -> Result<(), Fail> {
    let wrong = first_wrong(alloc, FOUND)?;
    assert!(rt; wrong.is_none(), "case {wrong:?}");
    let wrong = first_wrong(alloc, NEAR)?;
    assert!(rt; wrong.is_none(), "case {wrong:?} near a plan");
    Ok(())
}

// Where memory runs out, plans are looked for again, with all that is made for it.
#[test]
fn plans_without_memory_can_be_looked_for_again(rt: HostRuntime) -> Result<(), Fail> {
    if are_answered(&rt, rt.alloc()).report(&rt) == ExitCode::SUCCESS {
        return Ok(());
    }
    are_answered(&rt, rt.alloc())
}
