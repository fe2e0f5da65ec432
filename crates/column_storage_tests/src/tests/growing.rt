use crate::checks::growing::{
    bits_are_cut, bits_are_joined, both_leave, changed_are, constant_leaves, cut_leaves,
    flags_are_copied, flags_are_read, frozen_are, none_is_copied, pop_leaves, pushes_leave,
    set_leaves,
};
use column_checks::Flags;
use std::test::Fail;

const PUSHED: [(&[bool], Flags<'_>); 6] = [
    (&[], None),
    (&[true, true], None),
    (&[false], Some(&[false])),
    (&[true, true, false], Some(&[true, true, false])),
    (&[true, false, true, true], Some(&[true, false, true, true])),
    (&[false, false], Some(&[false, false])),
];

#[test]
fn the_first_null_makes_a_validity(rt: HostRuntime) -> Result<(), Fail> {
    for (flags, wanted) in PUSHED {
        assert!(rt; pushes_leave(rt.alloc(), flags, wanted)?, "{flags:?}");
    }
    Ok(())
}

const POPPED: [(&[bool], Flags<'_>); 4] = [
    (&[], None),
    (&[true], None),
    (&[false], Some(&[])),
    (&[true, false], Some(&[true])),
];

// flags, and how many are kept
const CUT: [(&[bool], usize, Flags<'_>); 3] = [
    (&[true, true], 1, None),
    (&[true, false, true], 1, Some(&[true])),
    (&[true, false, true], 9, Some(&[true, false, true])),
];

#[test]
fn flags_are_cut_back(rt: HostRuntime) -> Result<(), Fail> {
    for (flags, wanted) in POPPED {
        assert!(rt; pop_leaves(rt.alloc(), flags, wanted)?, "{flags:?}");
    }
    for (flags, count, wanted) in CUT {
        assert!(rt;
            cut_leaves(rt.alloc(), flags, count, wanted)?,
            "{flags:?} {count}"
        );
    }
    Ok(())
}

const CONSTANT: [(&[bool], usize, bool, Flags<'_>); 4] = [
    (&[true], 2, true, None),
    (&[true], 0, false, None),
    (&[true], 2, false, Some(&[true, false, false])),
    (&[false], 1, true, Some(&[false, true])),
];

#[test]
fn flags_are_alike(rt: HostRuntime) -> Result<(), Fail> {
    for (flags, added, flag, wanted) in CONSTANT {
        assert!(rt;
            constant_leaves(rt.alloc(), flags, added, flag, wanted)?,
            "{flags:?}"
        );
    }
    Ok(())
}

const SET: [(&[bool], usize, bool, Flags<'_>); 3] = [
    (&[true, true], 1, true, None),
    (&[true, true], 0, false, Some(&[false, true])),
    (&[true, false], 1, true, Some(&[true, true])),
];

#[test]
fn a_flag_is_changed(rt: HostRuntime) -> Result<(), Fail> {
    for (flags, index, flag, wanted) in SET {
        assert!(rt;
            set_leaves(rt.alloc(), flags, index, flag, wanted)?,
            "{flags:?}"
        );
    }
    Ok(())
}

const BOTH: [(&[bool], &[bool], Flags<'_>); 7] = [
    (&[], &[], None),
    (&[true, true], &[true], None),
    (
        &[true, true],
        &[false, true],
        Some(&[true, true, false, true]),
    ),
    (
        &[false, true],
        &[true, true],
        Some(&[false, true, true, true]),
    ),
    (&[true, false], &[false], Some(&[true, false, false])),
    (&[false], &[], Some(&[false])),
    (&[], &[false], Some(&[false])),
];

#[test]
fn flags_follow_flags(rt: HostRuntime) -> Result<(), Fail> {
    for (flags, others, wanted) in BOTH {
        assert!(rt;
            both_leave(rt.alloc(), flags, others, wanted)?,
            "{flags:?} {others:?}"
        );
    }
    Ok(())
}

// flags, how many of them are frozen, and these
const FROZEN: [(&[bool], usize, Flags<'_>); 3] = [
    (&[true, true], 2, None),
    (&[true, false], 2, Some(&[true, false])),
    (&[true, false], 1, None),
];

#[test]
fn flags_are_frozen_and_changed(rt: HostRuntime) -> Result<(), Fail> {
    for (flags, count, wanted) in FROZEN {
        assert!(rt;
            frozen_are(rt.alloc(), flags, count, wanted)?,
            "{flags:?} {count}"
        );
    }
    assert!(rt; flags_are_read(rt.alloc())?);
    assert!(rt; flags_are_copied(rt.alloc())? && none_is_copied()?);
    assert!(rt; changed_are(rt.alloc(), &[true, true], None)?);
    assert!(rt; changed_are(rt.alloc(), &[true, false], Some(&[true, true]))?);
    Ok(())
}

#[test]
fn bits_follow_bits(rt: HostRuntime) -> Result<(), Fail> {
    assert!(rt; bits_are_joined(rt.alloc())? && bits_are_cut(rt.alloc())?);
    Ok(())
}
