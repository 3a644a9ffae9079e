//! The stack maps of instructions.
#![tactic(auto)]

use crate::support::{i, map_of};
use Step::{Has, Set};
use clif_tables::Tables;
use clif_types::Type;
use clif_types::types::{I32, I64};
use std::test::Fail;

// An entry: its type, the number of its slot and its offset.
type Entry = (Type, u32, u32);

// A step, where instructions are named by their numbers.
enum Step {
    // Gives an instruction a stack map.
    Set(u32, &'static [Entry]),
    // Finds the stack map of an instruction.
    Has(u32, &'static [Entry]),
}

const ONE: &[Entry] = &[(I64, 0, 0)];

const TWO: &[Entry] = &[(I32, 1, 4), (I64, 0, 8)];

const OTHER: &[Entry] = &[(I32, 2, 16), (I32, 2, 20)];

const STEPS: [Step; 14] = [
    // Two instructions get stack maps, the later one first. Others, on each side of them, have none.
    Has(7, &[]),
    Set(7, ONE),
    Set(3, TWO),
    Has(3, TWO),
    Has(7, ONE),
    Has(0, &[]),
    Has(5, &[]),
    Has(8, &[]),
    // A stack map takes the place of the one that was there, and of no other.
    Set(7, OTHER),
    Has(7, OTHER),
    Has(3, TWO),
    Set(3, &[]),
    Has(3, &[]),
    Has(7, OTHER),
];

#[test]
fn stack_maps(rt: HostRuntime) -> Result<(), Fail> {
    let mut tables = Tables::new(rt.alloc());
    for step in STEPS.iter() {
        match step {
            Set(number, entries) => {
                let map = map_of(&rt, rt.alloc(), entries)?;
                tables.set_stack_map(i(&rt, *number), map)?;
            }
            Has(number, entries) => {
                let expected = map_of(&rt, rt.alloc(), entries)?;
                assert!(rt; tables.stack_map(i(&rt, *number)) == expected.as_slice());
            }
        }
    }
    Ok(())
}
