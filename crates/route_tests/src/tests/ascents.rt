//! What ascents of duals are made of: powers, logarithms, demands and groups, beside what they are by hand.

use dual_ascent::{Groups, Member, OCTAVE, ONE, Powers, Share, WHOLE, part_of, rise};
use std::test::Fail;

// Exponents, with the powers of two.
const POWERS: &[(i64, u64)] = &[
    (0, ONE),
    (OCTAVE, 2 * ONE),
    (-OCTAVE, ONE / 2),
    (-29 * OCTAVE, 2),
    (-40 * OCTAVE, 0),
];

#[test]
fn powers_double_and_halve(rt: HostRuntime) -> Result<(), Fail> {
    let powers = Powers::new(rt.alloc())?;
    for &(exponent, power) in POWERS {
        assert!(rt; powers.power(exponent) == power, "{exponent}");
    }
    // the root of two is 1.41421356 of ONE, and the 1,024th root of two 1.00067713 of it
    assert!(rt; powers.power(OCTAVE / 2).abs_diff(1_518_500_250) < 1000);
    assert!(rt; powers.power(1).abs_diff(1_074_468_888) < 1000);
    Ok(())
}

// Numbers, with their logarithms.
const LOGARITHMS: &[(u64, i64)] = &[
    (1, 0),
    (2, 1024),
    (3, 1623),
    (1000, 10204),
    (1 << 40, 40960),
    (0, 0),
];

#[test]
fn logarithms_undo_powers(rt: HostRuntime) -> Result<(), Fail> {
    let powers = Powers::new(rt.alloc())?;
    for &(number, exponent) in LOGARITHMS {
        assert!(rt; powers.logarithm(number) == exponent, "{number}");
    }
    Ok(())
}

const HALF: Share = Share { part: WHOLE / 2 };

const QUARTER: Share = Share { part: WHOLE / 4 };

// Whether the dual of an activity that is asked for so rises about so far.
fn rises(powers: &Powers, shares: &[Share], far: i64) -> bool {
    rise(powers, shares).abs_diff(far) < 48
}

#[test]
fn a_dual_rises_until_its_activity_is_asked_for_once(rt: HostRuntime) -> Result<(), Fail> {
    let powers = Powers::new(rt.alloc())?;
    // two halves are one; two quarters need odds of 1 for 3 turned to 1 for 1, which is a factor of 3
    assert!(rt; rise(&powers, &[HALF, HALF]) == 0);
    assert!(rt; rises(&powers, &[QUARTER, QUARTER], 1623));
    assert!(rt; rises(&powers, &[HALF, HALF, HALF, HALF], -1623));
    assert!(rt; part_of(ONE / 4, ONE) == WHOLE / 4);
    Ok(())
}

const MEMBERS: &[Member] = &[
    Member { group: 2, thing: 7 },
    Member { group: 0, thing: 5 },
    Member { group: 2, thing: 6 },
    Member { group: 9, thing: 1 },
];

// Groups, with their things.
const GROUPED: &[(usize, &[u32])] = &[(0, &[5]), (1, &[]), (2, &[7, 6]), (3, &[])];

#[test]
fn groups_keep_the_order_of_their_members(rt: HostRuntime) -> Result<(), Fail> {
    let mut groups = Groups::new(rt.alloc());
    groups.set(MEMBERS, 3)?;
    for &(group, things) in GROUPED {
        assert!(rt; groups.of(group) == things, "{group}");
    }
    Ok(())
}
