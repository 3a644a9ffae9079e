//! Random calls of fixed seeds, each made on the table of records and on the plain one.
use crate::plain::PlainTable;
use clif_records::Variable;
use clif_records::tables::VariableTable;
use clif_types::{Block, Value};
use rand::{RngExt, SeedableRng};
use rand_pcg::Pcg32;
use std::alloc::Global;
use std::process::Abort;
use std::test::Fail;

// How many calls are made with each seed, and how many seeds there are.
const CALLS: usize = 400;

const SEEDS: u64 = 5;

// In how many blocks beside one another a value is recorded, less one, at most.
const LONGEST: usize = 30;

// Which variables and blocks are named: so many of each, and how far the numbers of the blocks are apart.
#[derive(Clone, Copy)]
struct Places {
    variables: usize,
    blocks: usize,
    apart: usize,
}

// A number below a limit, or 0 if that is 0.
fn below(random: &mut Pcg32, limit: usize) -> usize {
    if limit == 0 {
        return 0;
    }
    random.random_range(0..limit)
}

// A number that an entity may have.
fn number(rt: &impl Abort, number: usize) -> u32 {
    let number = u32::try_from(number).unwrap_or(u32::MAX);
    assert!(rt; number < u32::MAX);
    number
}

impl Places {
    // The variable at a place among them.
    fn variable_at(self, rt: &impl Abort, place: usize) -> Variable {
        let number = number(rt, place);
        assert!(rt; number < u32::MAX);
        Variable::from_u32(number)
    }

    // The block at a place among them.
    fn block_at(self, rt: &impl Abort, place: usize) -> Block {
        let number = number(rt, place.saturating_mul(self.apart));
        assert!(rt; number < u32::MAX);
        Block::from_u32(number)
    }

    fn any_variable(self, rt: &impl Abort, random: &mut Pcg32) -> Variable {
        self.variable_at(rt, below(random, self.variables))
    }

    fn any_block(self, rt: &impl Abort, random: &mut Pcg32) -> Block {
        self.block_at(rt, below(random, self.blocks))
    }

    // Blocks beside one another, by rising or by falling numbers. After the last of the blocks comes the first.
    fn any_chain(
        self,
        rt: &impl Abort,
        alloc: Global,
        random: &mut Pcg32,
    ) -> Result<Vec<Block>, Fail> {
        let step = if below(random, 2) == 0 {
            1
        } else {
            self.blocks.saturating_sub(1)
        };
        let mut place = below(random, self.blocks);
        let mut chain = Vec::new(alloc);
        for _ in 0..below(random, LONGEST) {
            chain.push(self.block_at(rt, place))?;
            place = place
                .saturating_add(step)
                .checked_rem(self.blocks)
                .unwrap_or(0);
        }
        Ok(chain)
    }
}

fn any_value(rt: &impl Abort, random: &mut Pcg32) -> Value {
    // The greatest number of a value is among them.
    let number = u32::MAX - 1 - number(rt, below(random, 100)).min(100);
    assert!(rt; number < u32::MAX);
    Value::from_u32(number)
}

// Both tables.
#[derive(Drop)]
struct Pair {
    alloc: Global,
    places: Places,
    table: VariableTable,
    plain: PlainTable,
}

impl Pair {
    fn new(alloc: Global, places: Places) -> Pair {
        Pair {
            alloc,
            places,
            table: VariableTable::new(alloc),
            plain: PlainTable::new(alloc),
        }
    }

    // Asserts that both tables know the same of a variable in a block.
    fn agree_at(&self, rt: &impl Abort, variable: Variable, block: Block) {
        let value = self.plain.get(variable, block);
        assert!(rt; self.table.get(variable, block) == value);
        let lookups = self.plain.lookups(variable, block);
        assert!(rt; self.table.lookups(variable, block) == lookups);
    }

    // Asserts that both tables have as many records.
    fn agree_in_number(&self, rt: &impl Abort) {
        assert!(rt; self.table.records() == self.plain.records());
        assert!(rt; self.table.is_empty() == self.plain.is_empty());
    }

    // Asserts that both tables know the same of each variable in each block.
    fn agree(&self, rt: &impl Abort) {
        for variable in 0..self.places.variables {
            let variable = self.places.variable_at(rt, variable);
            for block in 0..self.places.blocks {
                self.agree_at(rt, variable, self.places.block_at(rt, block));
            }
        }
    }

    // Records a value in one block.
    fn sets(&mut self, rt: &impl Abort, random: &mut Pcg32) -> Result<(), Fail> {
        let variable = self.places.any_variable(rt, random);
        let block = self.places.any_block(rt, random);
        let value = any_value(rt, random);
        self.table.set(variable, block, value)?;
        self.plain.set(variable, block, value)?;
        assert!(rt; self.table.get(variable, block) == Some(value));
        self.agree_at(rt, variable, block);
        Ok(())
    }

    // Counts a look-up.
    fn counts(&mut self, rt: &impl Abort, random: &mut Pcg32) -> Result<(), Fail> {
        let variable = self.places.any_variable(rt, random);
        let block = self.places.any_block(rt, random);
        self.table.count_lookup(variable, block)?;
        self.plain.count_lookup(variable, block)?;
        self.agree_at(rt, variable, block);
        Ok(())
    }

    // Records a value along a chain, up to a block that may be in it.
    fn copies(&mut self, rt: &impl Abort, random: &mut Pcg32) -> Result<(), Fail> {
        let variable = self.places.any_variable(rt, random);
        let chain = self.places.any_chain(rt, self.alloc, random)?;
        let chain = chain.as_slice();
        let from = self.places.any_block(rt, random);
        let value = any_value(rt, random);
        self.table.set_each(variable, chain, from, value)?;
        self.plain.set_each(variable, chain, from, value)?;
        agree_along(rt, &self.table, &self.plain, variable, chain);
        Ok(())
    }

    // Makes one call, and compares what both know of the places that it names and of a further one.
    fn calls(&mut self, rt: &impl Abort, random: &mut Pcg32) -> Result<(), Fail> {
        match below(random, 100) {
            0 => {
                self.table.clear();
                self.plain.clear();
            }
            1..=40 => self.sets(rt, random)?,
            41..=70 => self.counts(rt, random)?,
            _ => self.copies(rt, random)?,
        }
        self.agree_in_number(rt);
        let variable = self.places.any_variable(rt, random);
        let block = self.places.any_block(rt, random);
        self.agree_at(rt, variable, block);
        Ok(())
    }
}

// Asserts that both tables have the same value of a variable in each block of a chain, where the page of one is at hand for
// the next.
fn agree_along(
    rt: &impl Abort,
    table: &VariableTable,
    plain: &PlainTable,
    variable: Variable,
    chain: &[Block],
) {
    let Some(first) = chain.first() else { return };
    let mut at_hand = table.page_of(variable, *first);
    for block in chain.iter() {
        let found = table.get_beside(variable, *block, &mut at_hand);
        assert!(rt; found == plain.get(variable, *block));
    }
}

// Makes random calls over these places with each seed.
fn compares(rt: &impl Abort, alloc: Global, places: Places) -> Result<(), Fail> {
    for seed in 0..SEEDS {
        let mut random = Pcg32::seed_from_u64(seed);
        let mut pair = Pair::new(alloc, places);
        for _ in 0..CALLS {
            pair.calls(rt, &mut random)?;
        }
        pair.agree(rt);
    }
    Ok(())
}

/// Few variables and few blocks, of which nearly each pair is recorded.
#[test]
fn dense(rt: HostRuntime) -> Result<(), Fail> {
    let places = Places {
        variables: 3,
        blocks: 20,
        apart: 1,
    };
    compares(&rt, rt.alloc(), places)
}

/// Many variables, each in few blocks.
#[test]
fn many_variables(rt: HostRuntime) -> Result<(), Fail> {
    let places = Places {
        variables: 300,
        blocks: 9,
        apart: 1,
    };
    compares(&rt, rt.alloc(), places)
}

/// Few variables in many blocks.
#[test]
fn many_blocks(rt: HostRuntime) -> Result<(), Fail> {
    let places = Places {
        variables: 2,
        blocks: 700,
        apart: 1,
    };
    compares(&rt, rt.alloc(), places)
}

/// Blocks with numbers far apart, up to the greatest ones.
#[test]
fn far_apart(rt: HostRuntime) -> Result<(), Fail> {
    let places = Places {
        variables: 20,
        blocks: 48,
        apart: 91_382_282,
    };
    compares(&rt, rt.alloc(), places)
}

/// Two blocks in each page of eight.
#[test]
fn half_beside(rt: HostRuntime) -> Result<(), Fail> {
    let places = Places {
        variables: 8,
        blocks: 60,
        apart: 4,
    };
    compares(&rt, rt.alloc(), places)
}
