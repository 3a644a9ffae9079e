//! Tables of the construction: the records of a variable, the branches that lead to a block, and the
//! parameters that wait in it.
ghost use Rattle.std.specs.Prelude.{◌≡◌, ◌≢◌, ◌==◌, ◌&&◌, ◌↔◌, IsTrue, true, false, ℕ, [], ◌∷◌, ◌++◌, ◌<◌, ◌≤◌, ◌+◌, ◌⊎◌, ◌^◌, length, take, OnOk, OnErr, IfOk, IfSome, IfNone, Some, None, option_copied, if◌then◌else◌, slice_index, slice_index_or};
ghost use Rattle.clif_instructions.specs.Members.{Stands, place_of, stands_in, without};
ghost use Rattle.std.specs.FinMap as map;
ghost use Rattle.clif_records.specs.Branches.{branches_of};
ghost use Rattle.clif_records.specs.Pages.{ChangesCell, HasNoPage, HasPageAt, IsAtHand, added_by, is_nothing, kept_at, page_in, page_number, place_in_page, recorded_in};
ghost use Rattle.clif_records.specs.Records.{recording, counting, HasEntry, RecordsIn, RecordsUpTo, RecordsSome};
ghost use Rattle.clif_records.specs.Tables.{No, Yes, recorded_at, record_at, lookups_at, one_more, known_at, sealed_at, predecessors_at, sealed_predecessors_at, is_yes, pending_of};

use crate::page_key::PageKey;
use crate::runs::put_run;
use crate::variable::Variable;
use crate::waiting::{PendingList, PendingTable};
use clif_types::{Block, BuildError, EntityRef, Inst, Value};
use indexmap::IndexMap;
use std::alloc::Global;
use std::marker::Model;
use std::slice;

/// What is known of a variable in a block.
#[derive(Clone, Copy, Debug, PartialEq, Eq)]
pub struct Recorded {
    /// The value that the variable has at the block's end so far, if one is known.
    pub value: Option<Value>,
    /// How many look-ups of the variable in the block's predecessors began, up to 2^32 - 1 of them.
    pub lookups: u32,
}

/// What is known where there is no record.
const NOTHING_RECORDED: Recorded = Recorded {
    value: None,
    lookups: 0,
};

/// A parameter that waits for its block to be sealed, and the variable for which it was made.
#[derive(Clone, Copy, Debug, PartialEq, Eq)]
pub struct Pending {
    pub variable: Variable,
    pub param: Value,
}

/// What a page keeps of a variable in one of its blocks, in eight bytes.
#[derive(Clone, Copy, Debug)]
pub(crate) struct Cell {
    // The number of the value; that of no value, `NO_VALUE`, where none is recorded.
    value: u32,
    lookups: u32,
}

// Stands for no value. No value has this number.
const NO_VALUE: u32 = 0xffff_ffff;

// Of how many blocks a page has the cells.
const BLOCKS_IN_PAGE: u32 = 8;

pub(crate) type Page = [Cell; BLOCKS_IN_PAGE as usize];

// Pages by their variable and number, in the order in which they were made.
type Pages = IndexMap<PageKey, Page>;

const EMPTY_PAGE: Page = [Cell {
    value: NO_VALUE,
    lookups: 0,
}; BLOCKS_IN_PAGE as usize];

const _: () = prove!(size_of::<Page>() == 64);

impl Cell {
    // What it keeps.
    fn recorded(self) -> Recorded
        ensures { result ≡ recorded_in self }
    {
        let value = if self.value == NO_VALUE {
            None
        } else {
            Some(Value::from_u32(self.value))
        };
        Recorded {
            value,
            lookups: self.lookups,
        }
    }

    // Whether it keeps nothing.
    fn is_empty(self) -> bool
        ensures { result ≡ is_nothing (recorded_in self) }
    {
        self.value == NO_VALUE && self.lookups == 0
    }
}

// What a cell of a page keeps.
fn kept_at(page: &Page, place: usize) -> Recorded
    requires { place < 8 }
    ensures { result ≡ kept_at (Some page.now) place }
{
    page[place].recorded()
}

// Makes a cell keep a value. Returns how many cells more keep something.
pub(crate) fn put_value(page: &mut Page, place: usize, value: Value) -> usize
    requires { place < 8 }
    ensures changed { ChangesCell page.old page.new place (recording value) }
    ensures added { result ≡ added_by page.old place }
{
    let cell = &mut page[place];
    let added = usize::from(cell.is_empty());
    cell.value = value.as_u32();
    added
}

// Makes a cell count a look-up. Returns how many cells more keep something.
fn count_one(page: &mut Page, place: usize) -> usize
    requires { place < 8 }
    ensures changed { ChangesCell page.old page.new place counting }
    ensures added { result ≡ added_by page.old place }
{
    let cell = &mut page[place];
    let added = usize::from(cell.is_empty());
    cell.lookups = cell.lookups.saturating_add(1);
    added
}

// The number of the page of a block: pages have eight blocks each, by their numbers.
pub(crate) fn page_number(block: Block) -> u32
    ensures { result ≡ page_number block }
{
    block.as_u32() / BLOCKS_IN_PAGE
}

// Where the cell of a block is in its page.
pub(crate) fn place_in_page(block: Block) -> usize
    ensures exact { result ≡ place_in_page block }
    ensures inside { result < 8 }
{
    (block.as_u32() % BLOCKS_IN_PAGE) as usize
}

// How many hints a table keeps: enough for most functions, and no more for a variable with a large number.
const HINTS: usize = 64;

// Which hint is that of a variable.
fn hint_of(variable: Variable) -> usize
    ensures { result < 64 }
{
    variable.index() % HINTS
}

// The place that the hint names, if the page there is that of a variable with this number.
#[inline(always)]
fn hinted_place(pages: &Pages, hint: usize, variable: Variable, number: u32) -> Option<usize>
    ensures { IfSome result (HasPageAt pages.now variable number) }
{
    if let Some((key, _)) = pages.get_index(hint) {
        if key.variable == variable && key.number == number {
            return Some(hint);
        }
    }
    None
}

// Where the page of a variable with this number is, if there is one. It is searched only where the page at the place
// that the hint names is another.
#[inline(always)]
fn place_of(pages: &Pages, hint: usize, variable: Variable, number: u32) -> Option<usize>
    ensures there { IfSome result (HasPageAt pages.now variable number) }
    ensures none { IfNone result (page_in pages.now variable number ≡ None) }
{
    if let Some(place) = hinted_place(pages, hint, variable, number) {
        return Some(place);
    }
    match pages.get_full(&PageKey { variable, number }) {
        Some((place, _, _)) => Some(place),
        None => None,
    }
}

// The page of a variable with this number, if there is one.
#[inline(always)]
fn page_at(pages: &Pages, hint: usize, variable: Variable, number: u32) -> Option<&Page>
    ensures { option_copied result ≡ page_in pages.now variable number }
{
    match place_of(pages, hint, variable, number) {
        Some(place) => Some(&pages[place]),
        None => None,
    }
}

/// What a search for the record of a variable in a block found.
#[derive(Clone, Copy, Debug)]
pub struct Searched {
    /// The record, if there is one.
    pub value: Option<Value>,
    /// Whether there is no page that would have it. So long as the records stay, it needn't be searched again.
    pub has_no_page: bool,
}

/// The page of a variable that was searched last, in which blocks beside one another have their cells.
#[derive(Clone, Copy)]
pub struct PageAtHand<'a> {
    number: u32,
    page: Option<&'a Page>,
}

impl PageAtHand<'_> {
    // What the page keeps for a block of its number.
    fn recorded(&self, block: Block) -> Recorded
        ensures { result ≡ kept_at (option_copied self.now.page) (place_in_page block) }
    {
        match self.page {
            Some(page) => kept_at(page, place_in_page(block)),
            None => NOTHING_RECORDED,
        }
    }
}

/// The records of all variables: a hash map from a variable and eight blocks with numbers side by side to a page
/// of cells, and how many cells keep something. So its memory is at most one page a record, and blocks that lie
/// side by side share the search for their page. Where a variable's page was the last to change, it is found with no
/// search.
#[derive(Debug)]
pub struct VariableTable {
    pages: Pages,
    count: usize,
    // For each remainder of a variable's number by 64, where the page that was changed last of such a variable is. Any
    // place may stand here: what the page there is is tested.
    hints: [usize; HINTS],
}

// By hand: a derived one is proved anew at each way out of a function that holds such a value.
impl Drop for VariableTable {
    fn drop(self) {
        let VariableTable {
            pages: _,
            count: _,
            hints: _,
        } = self;
    }
}

impl Model for VariableTable {
    ghost use Rattle.std.specs.Prelude.{◌≡◌};
    ghost use Rattle.std.specs.FinMap as map;
    ghost use Rattle.clif_records.specs.Pages.{records_in};
    ghost use Rattle.clif_records.specs.Tables.{RecordMap, record_map_code};

    ghost Value = { RecordMap };

    ghost coded = { record_map_code };

    ghost view = { λ t. records_in t.pages };

    ghost invariant = { λ t. t.count ≡ map.len (records_in t.pages) };
}

impl VariableTable {
    /// No records.
    pub fn new(alloc: Global) -> Self
        ensures { result ≡ map.empty }
    {
        VariableTable {
            pages: IndexMap::new(alloc),
            count: 0,
            hints: [0; HINTS],
        }
    }

    /// Forgets all records, and keeps the memory.
    pub fn clear(&mut self)
        ensures { self.new ≡ map.empty }
    {
        self.pages.clear();
        self.count = 0;
    }

    /// Whether nothing is recorded.
    pub fn is_empty(&self) -> bool
        ensures { IsTrue result ↔ (self.now ≡ map.empty) }
    {
        self.count == 0
    }

    /// In how many pairs of a variable and a block something is recorded.
    pub fn records(&self) -> usize
        ensures { result ≡ map.len self.now }
    {
        self.count
    }

    /// The page that has the cell of a variable in a block, if there is one.
    #[inline(always)]
    pub fn page_of(&self, variable: Variable, block: Block) -> PageAtHand<'_>
        ensures number { result.number ≡ page_number block }
        ensures at_hand { IsAtHand self.now variable result }
    {
        let number = page_number(block);
        let hint = self.hints[hint_of(variable)];
        PageAtHand {
            number,
            page: page_at(&self.pages, hint, variable, number),
        }
    }

    /// The page that has the cell of a variable in a block, if there is one. It isn't searched where it is known that
    /// there is none.
    #[inline(always)]
    pub fn page_unless_none(
        &self,
        variable: Variable,
        block: Block,
        has_no_page: bool,
    ) -> PageAtHand<'_>
        requires { has_no_page ≡ true → HasNoPage self.now variable (page_number block) }
        ensures number { result.number ≡ page_number block }
        ensures at_hand { IsAtHand self.now variable result }
    {
        if has_no_page {
            return PageAtHand {
                number: page_number(block),
                page: None,
            };
        }
        self.page_of(variable, block)
    }

    // The page at hand, if it has the cell of a variable in a block, and otherwise the one that has.
    #[inline(always)]
    fn turned<'a>(
        &'a self,
        variable: Variable,
        block: Block,
        at_hand: PageAtHand<'a>,
    ) -> PageAtHand<'a>
        requires { IsAtHand self.now variable at_hand }
        ensures number { result.number ≡ page_number block }
        ensures at_hand { IsAtHand self.now variable result }
    {
        if at_hand.number == page_number(block) {
            return at_hand;
        }
        self.page_of(variable, block)
    }

    /// The record of a variable in a block. Its page is searched only where the one at hand is another, and is at
    /// hand then.
    #[inline(always)]
    pub fn get_beside<'a>(
        &'a self,
        variable: Variable,
        block: Block,
        at_hand: &mut PageAtHand<'a>,
    ) -> Option<Value>
        requires { IsAtHand self.now variable at_hand.old }
        ensures exact { result ≡ record_at self.now variable block }
        ensures at_hand { IsAtHand self.now variable at_hand.new }
    {
        let turned = self.turned(variable, block, *at_hand);
        *at_hand = turned;
        turned.recorded(block).value
    }

    /// What is known of a variable in a block.
    fn recorded(&self, variable: Variable, block: Block) -> Recorded
        ensures { result ≡ recorded_at self.now variable block }
    {
        self.page_of(variable, block).recorded(block)
    }

    /// The record of a variable in a block.
    #[inline(always)]
    pub fn get(&self, variable: Variable, block: Block) -> Option<Value>
        ensures { result ≡ record_at self.now variable block }
    {
        self.recorded(variable, block).value
    }

    /// The record of a variable in a block, and whether there is a page that would have it.
    #[inline(always)]
    pub fn search(&self, variable: Variable, block: Block) -> Searched
        ensures exact { result.value ≡ record_at self.now variable block }
        ensures no_page { result.has_no_page ≡ true
            → HasNoPage self.now variable (page_number block) }
    {
        let at_hand = self.page_of(variable, block);
        Searched {
            value: at_hand.recorded(block).value,
            has_no_page: at_hand.page.is_none(),
        }
    }

    /// How many look-ups of a variable in a block's predecessors began.
    pub fn lookups(&self, variable: Variable, block: Block) -> u32
        ensures { result ≡ lookups_at self.now variable block }
    {
        self.recorded(variable, block).lookups
    }

    /// Records a value for a variable in a block.
    ///
    /// # Errors
    ///
    /// `Memory`, where memory is refused. The records are as they were then.
    #[inline(always)]
    pub fn set(&mut self, variable: Variable, block: Block, value: Value) -> Result<(), BuildError>
        ensures entry { OnOk result (HasEntry self.old self.new variable block (recording value)) }
        ensures refused { OnErr result (self.new ≡ self.old) }
        ensures ok { OnOk result ((v b : ℕ) → record_at self.new v b ≡ (if v == variable && b == block then Some value else record_at self.old v b)) }
        ensures lookups { (v b : ℕ) → lookups_at self.new v b ≡ lookups_at self.old v b }
        ensures err { OnErr result ((v b : ℕ) → record_at self.new v b ≡ record_at self.old v b) }
        ensures only_memory { OnErr result (result ≡ Err BuildError.Memory) }
    {
        if self.count == usize::MAX {
            return Err(BuildError::Memory);
        }
        let number = page_number(block);
        match hinted_place(&self.pages, self.hints[hint_of(variable)], variable, number) {
            Some(place) => {
                let (_, page) = self.pages.pair_mut(place);
                self.count += put_value(page, place_in_page(block), value);
                Ok(())
            }
            None => self.set_in_other_page(variable, block, value),
        }
    }

    // Records a value for a variable in a block whose page is searched, and may not be there yet.
    fn set_in_other_page(
        &mut self,
        variable: Variable,
        block: Block,
        value: Value,
    ) -> Result<(), BuildError>
        ensures entry { OnOk result (HasEntry self.old self.new variable block (recording value)) }
        ensures refused { OnErr result (self.new ≡ self.old) }
        ensures only_memory { OnErr result (result ≡ Err BuildError.Memory) }
    {
        if self.count == usize::MAX {
            return Err(BuildError::Memory);
        }
        let number = page_number(block);
        let entry = self.pages.entry(PageKey { variable, number })?;
        self.hints[hint_of(variable)] = entry.index();
        let page = entry.or_insert(EMPTY_PAGE);
        self.count += put_value(page, place_in_page(block), value);
        Ok(())
    }

    /// Records a value for a variable in these blocks, up to the first `from` among them.
    ///
    /// # Errors
    ///
    /// `Memory`, where memory is refused. The value may be recorded in some of the blocks then.
    #[inline(always)]
    pub fn set_each(
        &mut self,
        variable: Variable,
        blocks: &[Block],
        from: Block,
        value: Value,
    ) -> Result<(), BuildError>
        ensures ok { OnOk result (RecordsUpTo self.old self.new variable value blocks.now from) }
        ensures part { RecordsSome self.old self.new variable value blocks.now }
        ensures lookups { (v b : ℕ) → lookups_at self.new v b ≡ lookups_at self.old v b }
        ensures only_memory { OnErr result (result ≡ Err BuildError.Memory) }
    {
        let mut done = 0;
        while done < blocks.len() {
            if blocks[done] == from {
                break;
            }
            done += self.set_run(variable, &blocks[done..], from, value)?;
        }
        Ok(())
    }

    // Records a value for a variable in the first of these blocks, and in those after it whose cells are in the same
    // page, up to the first `from`. Returns how many these are. After an error the records are as they were.
    #[inline(always)]
    fn set_run(
        &mut self,
        variable: Variable,
        blocks: &[Block],
        from: Block,
        value: Value,
    ) -> Result<usize, BuildError>
        requires some { 0 < length blocks.now }
        requires first { slice_index blocks.now 0 ≢ from }
        ensures run { IfOk result (λ n.
            RecordsIn self.old self.new variable value (λ b. stands_in b (take n blocks.now))) }
        ensures lookups { OnOk result
            ((v b : ℕ) → lookups_at self.new v b ≡ lookups_at self.old v b) }
        ensures apart { IfOk result
            (λ n. (k : ℕ) → k < n → slice_index blocks.now k ≢ from) }
        ensures within { IfOk result (λ n. (0 < n) × (n ≤ length blocks.now)) }
        ensures refused { OnErr result (self.new ≡ self.old) }
        ensures only_memory { OnErr result (result ≡ Err BuildError.Memory) }
    {
        if blocks.len() > usize::MAX - self.count {
            return Err(BuildError::Memory);
        }
        let number = page_number(blocks[0]);
        match hinted_place(&self.pages, self.hints[hint_of(variable)], variable, number) {
            Some(place) => {
                let (_, page) = self.pages.pair_mut(place);
                let run = put_run(page, number, blocks, from, value);
                self.count += run.added;
                Ok(run.blocks)
            }
            None => {
                self.set_in_other_page(variable, blocks[0], value)?;
                Ok(1)
            }
        }
    }

    /// Counts a look-up of a variable in a block's predecessors.
    ///
    /// # Errors
    ///
    /// `Memory`, where memory is refused. The records are as they were then.
    #[inline(always)]
    pub fn count_lookup(&mut self, variable: Variable, block: Block) -> Result<(), BuildError>
        ensures entry { OnOk result (HasEntry self.old self.new variable block counting) }
        ensures refused { OnErr result (self.new ≡ self.old) }
        ensures records { (v b : ℕ) → record_at self.new v b ≡ record_at self.old v b }
        ensures ok { OnOk result ((v b : ℕ) → lookups_at self.new v b ≡ (if v == variable && b == block then one_more (lookups_at self.old v b) else lookups_at self.old v b)) }
        ensures err { OnErr result ((v b : ℕ) → lookups_at self.new v b ≡ lookups_at self.old v b) }
        ensures only_memory { OnErr result (result ≡ Err BuildError.Memory) }
    {
        if self.count == usize::MAX {
            return Err(BuildError::Memory);
        }
        let number = page_number(block);
        match hinted_place(&self.pages, self.hints[hint_of(variable)], variable, number) {
            Some(place) => {
                let (_, page) = self.pages.pair_mut(place);
                self.count += count_one(page, place_in_page(block));
                Ok(())
            }
            None => self.count_in_other_page(variable, block),
        }
    }

    // Counts a look-up of a variable in a block whose page is searched, and may not be there yet.
    fn count_in_other_page(&mut self, variable: Variable, block: Block) -> Result<(), BuildError>
        ensures entry { OnOk result (HasEntry self.old self.new variable block counting) }
        ensures refused { OnErr result (self.new ≡ self.old) }
        ensures only_memory { OnErr result (result ≡ Err BuildError.Memory) }
    {
        if self.count == usize::MAX {
            return Err(BuildError::Memory);
        }
        let number = page_number(block);
        let entry = self.pages.entry(PageKey { variable, number })?;
        self.hints[hint_of(variable)] = entry.index();
        let page = entry.or_insert(EMPTY_PAGE);
        self.count += count_one(page, place_in_page(block));
        Ok(())
    }
}

/// The branches that lead to a block, in the order in which they were declared. Up to two take no memory of their own.
#[derive(Debug)]
pub struct Predecessors {
    branches: Branches,
}

// By hand: a derived one is proved anew at each way out of a function that holds such a value.
impl Drop for Predecessors {
    fn drop(self) {
        let Predecessors { branches: _ } = self;
    }
}

// The branches of a block.
#[derive(Debug)]
enum Branches {
    None,
    One(Inst),
    Two([Inst; 2]),
    // Three or more, or fewer that are left of these.
    More(Box<Vec<Inst>>),
}

// By hand: a derived one is proved anew at each way out of a function that holds such a value.
impl Drop for Branches {
    fn drop(self) {
        match self {
            Branches::None => {}
            Branches::One(_) => {}
            Branches::Two(_) => {}
            Branches::More(_) => {}
        }
    }
}

const _: () = prove!(size_of::<Predecessors>() == 16);

impl Model for Predecessors {
    ghost use Rattle.std.specs.Prelude.{ℕ, List};
    ghost use Rattle.clif_records.specs.Branches.{branches_of};

    ghost Value = { List ℕ };

    ghost view = { λ p. branches_of p.branches };
}

impl Predecessors {
    /// No branch.
    pub(crate) fn new() -> Self
        ensures { result ≡ [] }
    {
        Predecessors {
            branches: Branches::None,
        }
    }

    /// The branches, in order.
    #[inline(always)]
    pub(crate) fn as_slice(&self) -> &[Inst]
        ensures { result.now ≡ self.now }
    {
        match &self.branches {
            Branches::None => &[],
            Branches::One(branch) => slice::from_ref(branch),
            Branches::Two(pair) => pair,
            Branches::More(more) => more.as_slice(),
        }
    }

    /// The branches, in order, where there is mostly one: that is tested for alone, with no jump to one of four cases.
    #[inline(always)]
    pub(crate) fn as_slice_of_one(&self) -> &[Inst]
        ensures { result.now ≡ self.now }
    {
        match &self.branches {
            Branches::One(branch) => slice::from_ref(branch),
            _ => self.as_other_slice(),
        }
    }

    // The branches, in order, by a call that stays one: it is seldom made, and so costs a walk no register.
    #[cold]
    #[inline(never)]
    fn as_other_slice(&self) -> &[Inst]
        ensures { result.now ≡ self.now }
    {
        self.as_slice()
    }

    /// Puts a branch behind the others. After an error the list is as it was.
    pub(crate) fn push(&mut self, alloc: Global, branch: Inst) -> Result<(), BuildError>
        ensures ok { OnOk result (self.new ≡ self.old ++ branch ∷ []) }
        ensures err { OnErr result (self.new ≡ self.old) }
        ensures only_memory { OnErr result (result ≡ Err BuildError.Memory) }
    {
        match &mut self.branches {
            Branches::None => self.branches = Branches::One(branch),
            Branches::One(first) => self.branches = Branches::Two([*first, branch]),
            Branches::Two(pair) => {
                let [first, second] = *pair;
                self.branches = more_branches(alloc, &[first, second, branch])?;
            }
            Branches::More(more) => more.push(branch)?,
        }
        Ok(())
    }

    /// Takes the first entry of this branch away, which stands in the list; those behind it move up.
    #[tactic(auto, using(clif_instructions::proofs::Members::place_rules))]
    pub(crate) fn remove(&mut self, branch: Inst)
        requires { Stands branch self.old }
        ensures { self.new ≡ without branch self.old }
    {
        match &mut self.branches {
            Branches::None | Branches::One(_) => self.branches = Branches::None,
            Branches::Two(pair) => {
                let [first, second] = *pair;
                self.branches = Branches::One(if first == branch { second } else { first });
            }
            Branches::More(more) => {
                let place = place_in(more.as_slice(), branch);
                let _ = more.remove(place);
            }
        }
    }
}

// Branches that lie in memory of their own. The only error is `Memory`.
fn more_branches(alloc: Global, branches: &[Inst]) -> Result<Branches, BuildError>
    ensures ok { IfOk result (λ more. branches_of more ≡ branches.now) }
    ensures only_memory { OnErr result (result ≡ Err BuildError.Memory) }
{
    let mut more = Vec::new(alloc);
    more.extend_from_slice(branches)?;
    Ok(Branches::More(Box::new(alloc, more)?))
}

// The place of the first entry of this branch, which is one of these.
#[tactic(auto, using(clif_instructions::proofs::Members::place_rules))]
fn place_in(branches: &[Inst], branch: Inst) -> usize
    requires { Stands branch branches.now }
    ensures exact { result ≡ place_of branch branches.now }
    ensures inside { result < length branches.now }
{
    for (place, other) in branches.iter().enumerate() {
        if *other == branch {
            return place;
        }
    }
    unreachable!()
}

/// Whether a block is sealed, and where in the table of what waits its last parameter is.
#[derive(Clone, Copy, Debug)]
pub(crate) enum RowState {
    /// It may still get predecessors. The place is 0 where no parameter waits until it is sealed.
    Unsealed { last: u32 },
    /// All its predecessors are known.
    Sealed,
}

/// What the construction knows of a block.
#[derive(Debug)]
pub(crate) struct BlockRow {
    // The branches that lead to it.
    predecessors: Predecessors,
    // Whether these are all.
    state: RowState,
}

// By hand: a derived one is proved anew at each way out of a function that holds such a value.
impl Drop for BlockRow {
    fn drop(self) {
        let BlockRow {
            predecessors: _,
            state: _,
        } = self;
    }
}

/// What the construction knows of each block: a row a block, and one table of the parameters that wait in all of
/// them, which is emptied as soon as no block has one.
#[derive(Debug)]
pub struct BlockTable {
    rows: Vec<BlockRow>,
    pending: PendingTable,
    // In how many blocks parameters wait.
    waiting: usize,
}

// By hand: a derived one is proved anew at each way out of a function that holds such a value.
impl Drop for BlockTable {
    fn drop(self) {
        let BlockTable {
            rows: _,
            pending: _,
            waiting: _,
        } = self;
    }
}

impl Model for BlockTable {
    ghost use Rattle.std.specs.Prelude.{List, map};
    ghost use Rattle.std.specs.Coded.{coded_list};
    ghost use Rattle.clif_records.specs.Tables.{SsaBlock, ssa_block_code};

    ghost Value = { List SsaBlock };

    ghost coded = { coded_list ssa_block_code };

    ghost use Rattle.clif_records.specs.Waiting.{IsBlockTable, known_of};

    ghost view = { λ t. map (known_of t.pending) t.rows.items };

    ghost invariant = { λ t. IsBlockTable t.rows.items t.pending t.waiting };
}

impl BlockTable {
    /// No block.
    pub fn new(alloc: Global) -> Self
        ensures { result ≡ [] }
    {
        BlockTable {
            rows: Vec::new(alloc),
            pending: PendingTable::new(alloc),
            waiting: 0,
        }
    }

    /// Forgets all blocks, and keeps the memory.
    pub fn clear(&mut self)
        ensures { self.new ≡ [] }
    {
        self.rows.clear();
        self.pending.clear();
        self.waiting = 0;
    }

    /// Whether no block was ever declared.
    pub fn is_empty(&self) -> bool
        ensures { IsTrue result ↔ (self.now ≡ []) }
    {
        self.rows.is_empty()
    }

    /// How many blocks there is room for.
    pub fn len(&self) -> usize
        ensures exact { result ≡ length self.now }
        ensures bounded { result < 2 ^ 32 }
    {
        self.rows.len()
    }

    /// Whether a block is sealed.
    pub fn is_sealed(&self, block: Block) -> bool
        ensures { result ≡ is_yes (sealed_at self.now block) }
    {
        match self.rows.get(block.index()) {
            Some(row) => matches!(row.state, RowState::Sealed),
            None => false,
        }
    }

    /// The branches that lead to a block.
    pub fn predecessors(&self, block: Block) -> &[Inst]
        ensures { result.now ≡ predecessors_at self.now block }
    {
        match self.rows.get(block.index()) {
            Some(row) => row.predecessors.as_slice(),
            None => &[],
        }
    }

    /// The branches that lead to a sealed block. Of an unsealed one none is answered.
    #[inline(always)]
    pub fn sealed_predecessors(&self, block: Block) -> &[Inst]
        ensures { result.now ≡ sealed_predecessors_at self.now block }
    {
        match self.rows.get(block.index()) {
            Some(
                BlockRow {
                    state: RowState::Sealed,
                    predecessors,
                },
            ) => predecessors.as_slice_of_one(),
            _ => &[],
        }
    }

    /// Makes room for a block. What is known of each block stays.
    ///
    /// # Errors
    ///
    /// `Memory`, where memory is refused.
    #[inline(always)]
    pub fn declare(&mut self, block: Block) -> Result<(), BuildError>
        ensures same { (b : ℕ) → known_at self.new b ≡ known_at self.old b }
        ensures ok { OnOk result (block < length self.new) }
        ensures no_more { (length self.new ≤ length self.old) ⊎ (length self.new ≤ block + 1) }
        ensures only_memory { OnErr result (result ≡ Err BuildError.Memory) }
    {
        if block.index() < self.rows.len() {
            return Ok(());
        }
        let missing = (block.index() + 1).saturating_sub(self.rows.len());
        for _ in 0..missing {
            self.rows.push(BlockRow {
                predecessors: Predecessors::new(),
                state: RowState::Unsealed { last: 0 },
            })?;
        }
        Ok(())
    }

    /// Puts a branch behind those that lead to a block.
    ///
    /// # Errors
    ///
    /// `Memory`, where memory is refused. The branches that lead to each block are as they were then.
    #[inline(always)]
    pub fn declare_predecessor(&mut self, block: Block, branch: Inst) -> Result<(), BuildError>
        ensures sealed { (b : ℕ) → sealed_at self.new b ≡ sealed_at self.old b }
        ensures ok { OnOk result ((b : ℕ) → predecessors_at self.new b ≡ (if b == block then predecessors_at self.old b ++ branch ∷ [] else predecessors_at self.old b)) }
        ensures err { OnErr result ((b : ℕ) → predecessors_at self.new b ≡ predecessors_at self.old b) }
        ensures no_more { (length self.new ≤ length self.old) ⊎ (length self.new ≤ block + 1) }
        ensures only_memory { OnErr result (result ≡ Err BuildError.Memory) }
    {
        self.declare(block)?;
        let alloc = *self.rows.allocator();
        self.rows[block.index()].predecessors.push(alloc, branch)
    }

    /// Takes a branch away from those that lead to a block; the others keep their order.
    pub fn remove_predecessor(&mut self, block: Block, branch: Inst)
        requires { Stands branch (predecessors_at self.old block) }
        ensures sealed { (b : ℕ) → sealed_at self.new b ≡ sealed_at self.old b }
        ensures ok { (b : ℕ) → predecessors_at self.new b ≡ (if b == block then without branch (predecessors_at self.old b) else predecessors_at self.old b) }
        ensures no_more { length self.new ≤ length self.old }
    {
        self.rows[block.index()].predecessors.remove(branch);
    }

    /// Puts a parameter behind those that wait in an unsealed block.
    ///
    /// # Errors
    ///
    /// `Memory`, where memory is refused. Each block is as it was then.
    #[inline(always)]
    pub fn wait(&mut self, block: Block, variable: Variable, param: Value) -> Result<(), BuildError>
        requires { is_yes (sealed_at self.old block) ≡ false }
        ensures ok { OnOk result ((b : ℕ) → sealed_at self.new b ≡ (if b == block then No (pending_of (sealed_at self.old b) ++ record { variable = variable; param = param } ∷ []) else sealed_at self.old b)) }
        ensures err { OnErr result ((b : ℕ) → sealed_at self.new b ≡ sealed_at self.old b) }
        ensures predecessors { (b : ℕ) → predecessors_at self.new b ≡ predecessors_at self.old b }
        ensures no_more { (length self.new ≤ length self.old) ⊎ (length self.new ≤ block + 1) }
        ensures only_memory { OnErr result (result ≡ Err BuildError.Memory) }
    {
        self.declare(block)?;
        let RowState::Unsealed { last } = self.rows[block.index()].state else {
            unreachable!()
        };
        let place = self.pending.push(variable, param, last)?;
        self.rows[block.index()].state = RowState::Unsealed { last: place };
        self.waiting += usize::from(last == 0);
        Ok(())
    }

    /// Seals a block, and answers the parameters that waited in it.
    ///
    /// # Errors
    ///
    /// `Memory`, where memory is refused. Each block is as it was then.
    pub fn seal(&mut self, block: Block) -> Result<PendingList, BuildError>
        ensures pending { IfOk result (λ l. l ≡ pending_of (sealed_at self.old block)) }
        ensures ok { OnOk result ((b : ℕ) → sealed_at self.new b ≡ (if b == block then Yes else sealed_at self.old b)) }
        ensures known { OnOk result (block < length self.new) }
        ensures err { OnErr result ((b : ℕ) → sealed_at self.new b ≡ sealed_at self.old b) }
        ensures predecessors { (b : ℕ) → predecessors_at self.new b ≡ predecessors_at self.old b }
        ensures no_more { (length self.new ≤ length self.old) ⊎ (length self.new ≤ block + 1) }
        ensures only_memory { OnErr result (result ≡ Err BuildError.Memory) }
    {
        self.declare(block)?;
        let RowState::Unsealed { last } = self.rows[block.index()].state else {
            return Ok(PendingList::new(*self.rows.allocator()));
        };
        let waited = self.pending.list_to(last)?;
        self.rows[block.index()].state = RowState::Sealed;
        self.waiting -= usize::from(last != 0);
        if self.waiting == 0 {
            self.pending.clear();
        }
        Ok(waited)
    }
}
