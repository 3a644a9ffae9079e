//! Sets of numbers: which are members, which come next, and how many words a row keeps.
#![tactic(auto)]

use clif_number_sets::number_row::NumberRow;
use clif_number_sets::number_set::NumberSet;
use std::alloc::Global;
use std::process::Abort;
use std::test::Fail;

// A set of numbers below a size by its members, by rising number.
#[derive(Clone, Copy)]
struct Row {
    size: usize,
    members: &'static [usize],
    // The words between the first and the last member's: 64 numbers a word.
    words: usize,
}

const ROWS: [Row; 12] = [
    Row {
        size: 0,
        members: &[],
        words: 0,
    },
    Row {
        size: 1,
        members: &[],
        words: 0,
    },
    Row {
        size: 1,
        members: &[0],
        words: 1,
    },
    Row {
        size: 63,
        members: &[0, 62],
        words: 1,
    },
    Row {
        size: 64,
        members: &[0, 31, 63],
        words: 1,
    },
    Row {
        size: 64,
        members: &[63],
        words: 1,
    },
    Row {
        size: 65,
        members: &[63, 64],
        words: 2,
    },
    Row {
        size: 65,
        members: &[64],
        words: 1,
    },
    Row {
        size: 200,
        members: &[70],
        words: 1,
    },
    Row {
        size: 200,
        members: &[63, 64, 127, 128],
        words: 3,
    },
    Row {
        size: 200,
        members: &[191, 192, 199],
        words: 2,
    },
    Row {
        size: 200,
        members: &[0, 199],
        words: 4,
    },
];

// What is added to a row in turn, whether any of it is new, and the words that the row keeps then.
#[derive(Clone, Copy)]
struct Growth {
    added: &'static [usize],
    grown: bool,
    words: usize,
}

const GROWTHS: [Growth; 9] = [
    Growth {
        added: &[],
        grown: false,
        words: 0,
    },
    Growth {
        added: &[130, 140],
        grown: true,
        words: 1,
    },
    Growth {
        added: &[140],
        grown: false,
        words: 1,
    },
    Growth {
        added: &[135, 140],
        grown: true,
        words: 1,
    },
    Growth {
        added: &[199],
        grown: true,
        words: 2,
    },
    Growth {
        added: &[130, 199],
        grown: false,
        words: 2,
    },
    Growth {
        added: &[63],
        grown: true,
        words: 4,
    },
    Growth {
        added: &[64, 127],
        grown: true,
        words: 4,
    },
    Growth {
        added: &[63, 64, 127, 130, 135, 140, 199],
        grown: false,
        words: 4,
    },
];

// What a set that is used again and again has had added and removed since it was cleared, and what its members are then.
#[derive(Clone, Copy)]
struct Use {
    added: &'static [usize],
    removed: &'static [usize],
    members: &'static [usize],
    // The words between the first and the last member's.
    words: usize,
}

const USES: [Use; 6] = [
    Use {
        added: &[0, 63, 999],
        removed: &[],
        members: &[0, 63, 999],
        words: 16,
    },
    Use {
        added: &[999],
        removed: &[],
        members: &[999],
        words: 1,
    },
    Use {
        added: &[500, 320, 450],
        removed: &[],
        members: &[320, 450, 500],
        words: 3,
    },
    Use {
        added: &[],
        removed: &[500],
        members: &[],
        words: 0,
    },
    Use {
        added: &[640, 128, 960],
        removed: &[0, 128, 960, 999],
        members: &[640],
        words: 1,
    },
    Use {
        added: &[64],
        removed: &[64],
        members: &[],
        words: 0,
    },
];

fn set_of(alloc: Global, size: usize, members: &[usize]) -> Result<NumberSet, Fail> {
    let mut set = NumberSet::new(alloc, size)?;
    for member in members {
        if *member < set.size() {
            set.insert(*member);
        }
    }
    Ok(set)
}

// The members are these and no others, also as a walk lists them.
fn has_members(rt: &impl Abort, set: &NumberSet, members: &[usize]) {
    for place in 0..set.size() {
        assert_eq!(rt; set.contains(place), members.contains(&place), "at {place}");
    }
    let mut start = 0;
    for member in members {
        assert!(rt; set.next_from(start) == Some(*member));
        assert!(rt; set.next_from(*member) == Some(*member));
        start = member.saturating_add(1);
    }
    assert!(rt; set.next_from(start).is_none());
    assert!(rt; set.next_from(usize::MAX).is_none());
}

fn row_has(rt: &impl Abort, row: &NumberRow, members: &[usize]) {
    for place in 0..row.size() {
        assert_eq!(rt; row.contains(place), members.contains(&place), "at {place}");
    }
}

#[test]
fn members(rt: HostRuntime) -> Result<(), Fail> {
    for row in ROWS {
        let mut set = set_of(rt.alloc(), row.size, row.members)?;
        assert_eq!(rt; set.size(), row.size);
        has_members(&rt, &set, row.members);
        let mut kept = NumberRow::new(rt.alloc(), row.size);
        assert!(rt; kept.add_all(&set)? != row.members.is_empty());
        assert_eq!(rt; kept.words(), row.words);
        row_has(&rt, &kept, row.members);
        set.clear();
        has_members(&rt, &set, &[]);
        if kept.size() == set.size() {
            set.add_all(&kept);
        }
        has_members(&rt, &set, row.members);
    }
    Ok(())
}

#[test]
fn growing(rt: HostRuntime) -> Result<(), Fail> {
    let mut row = NumberRow::new(rt.alloc(), 200);
    for growth in GROWTHS {
        let set = set_of(rt.alloc(), 200, growth.added)?;
        if row.size() == set.size() {
            assert_eq!(rt; row.add_all(&set)?, growth.grown);
        }
        assert_eq!(rt; row.words(), growth.words);
    }
    row_has(&rt, &row, &[63, 64, 127, 130, 135, 140, 199]);
    Ok(())
}

#[test]
fn removing(rt: HostRuntime) -> Result<(), Fail> {
    let mut set = set_of(rt.alloc(), 65, &[0, 63, 64])?;
    for place in [63, 62, 0] {
        if place < set.size() {
            set.remove(place);
        }
    }
    has_members(&rt, &set, &[64]);
    Ok(())
}

// A set that is cleared for each use has nothing left of the uses before, wherever their members were.
#[test]
fn clearing(rt: HostRuntime) -> Result<(), Fail> {
    let mut set = NumberSet::new(rt.alloc(), 1000)?;
    for each in USES {
        for place in each.added {
            if *place < set.size() {
                set.insert(*place);
            }
        }
        for place in each.removed {
            if *place < set.size() {
                set.remove(*place);
            }
        }
        has_members(&rt, &set, each.members);
        let mut kept = NumberRow::new(rt.alloc(), set.size());
        assert!(rt; kept.add_all(&set)? != each.members.is_empty());
        assert_eq!(rt; kept.words(), each.words);
        row_has(&rt, &kept, each.members);
        set.clear();
        has_members(&rt, &set, &[]);
        set.add_all(&kept);
        has_members(&rt, &set, each.members);
        set.clear();
    }
    Ok(())
}
