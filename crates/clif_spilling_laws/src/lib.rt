//! The law of spilling: a function with stores and reloads of spilled values and exact stack maps means, under a moving collector
//! that goes by the maps, what the function before means under the collector over the recorded values. And laws that it rests on. The
//! functions here have empty bodies, and their contracts are the laws of the definitions.
#![tactic(auto)]

ghost use Rattle.clif_spilling_laws.specs.Accesses.{ReloadsRun, StoredIsLoaded};
ghost use Rattle.clif_spilling_laws.specs.EdgeLaws.{ConsistentLeadsInside, EdgesStayMatched};
ghost use Rattle.clif_spilling_laws.specs.Examples.{SpillingExamples};
ghost use Rattle.clif_spilling_laws.specs.GivesOnce.{ConsistentGivesOnce};
ghost use Rattle.clif_spilling_laws.specs.LandingsExample.{LandingsExample};
ghost use Rattle.clif_spilling_laws.specs.Laws.{SpillingMeansTheSame};
ghost use Rattle.clif_spilling_laws.specs.LoopExample.{LoopExample};
ghost use Rattle.clif_spilling_laws.specs.MovedExample.{MovedExample};
ghost use Rattle.clif_spilling_laws.specs.PartLaws.{EachEntryMoves, LiveIsGiven, NothingLiveAtEntry, SpilledIsLive, TypedRunsFit, TypedRunsMeet};
ghost use Rattle.clif_spilling_laws.specs.SlotContents.{SlotContents};
ghost use Rattle.clif_spilling_laws.specs.SlotReuseExample.{SlotReuseExample};
ghost use Rattle.clif_spilling_laws.specs.TableItemsExample.{TableItemsExample};
ghost use Rattle.clif_spilling_laws.specs.UncountedExample.{UncountedExample};

/// A function with stores, reloads and exact maps means, under the collector by maps, what the function before means under the
/// collector over the members: where each value is given once, edges match, aliases are typed, the function is well placed, no slot
/// is shared, and the world places the slots and the run before spares the new ones.
pub fn spilling_means_the_same()
    ensures { SpillingMeansTheSame }
{}

/// Under the same premises, at each call that the run after comes to, each slot that the call's stack map names holds the bits that the
/// run before has for the entry's value then.
pub fn slot_contents()
    ensures { SlotContents }
{}

/// What was stored in a spilled value's slot is loaded from it, where the value fits its type.
pub fn stored_is_loaded()
    ensures { StoredIsLoaded }
{}

/// A reload runs, in two steps of the machine, and changes no memory.
pub fn reloads_run()
    ensures { ReloadsRun }
{}

/// Nothing is live at the entry of a well placed function but the entry's parameters.
pub fn nothing_live_at_entry()
    ensures { NothingLiveAtEntry }
{}

/// What is live at a place that is reached is a value of the function.
pub fn live_is_given()
    ensures { LiveIsGiven }
{}

/// What is live across a call that is reached is live right after it is given.
pub fn spilled_is_live()
    ensures { SpilledIsLive }
{}

/// The collector by maps moves what lies in each slot that a map names, once.
pub fn each_entry_moves()
    ensures { EachEntryMoves }
{}

/// In the run of a typed function each instruction gives bits to each of its results, and the members fit their types.
pub fn typed_runs_fit()
    ensures { TypedRunsFit }
{}

/// A typed run that spares hidden addresses is one that the law of spilling is about, where pointers and slots are the world's.
pub fn typed_runs_meet()
    ensures { TypedRunsMeet }
{}

/// Matching edges stay matching, landing blocks included: where the function before gives each value once, its aliases are typed, and
/// its blocks that aren't reached lead to no landing block.
pub fn edges_stay_matched()
    ensures { EdgesStayMatched }
{}

/// The edges of a consistent function lead to no landing block, and pass its own values, where landing blocks come after its blocks.
pub fn consistent_leads_inside()
    ensures { ConsistentLeadsInside }
{}

/// A consistent function gives each value once.
pub fn consistent_gives_once()
    ensures { ConsistentGivesOnce }
{}

/// The function of a worked row with a try call and its landing block is a spilling, and meets what the law asks of functions; wrong
/// ones are refused.
pub fn spilling_examples()
    ensures { SpillingExamples }
{}

/// The law's premises hold at once of a function with a value that an outside call moves: both runs return the moved number, and
/// without the entry in the call's stack map the function is refused, and returns the number that was passed.
pub fn moved_example()
    ensures { MovedExample }
{}

/// The row `slot_reuse` is a spilling, two values share its slot one after the other, and the law's premises hold at once.
pub fn slot_reuse_example()
    ensures { SlotReuseExample }
{}

/// A try call with two landing blocks is a spilling, its edges match, and the law's premises hold at once, whichever edge is taken.
pub fn landings_example()
    ensures { LandingsExample }
{}

/// A try call with two items in its table, whose edges pass a spilled value to one block, is a spilling with two landing blocks, and the
/// law's premises hold at once, whichever item is thrown to.
pub fn table_items_example()
    ensures { TableItemsExample }
{}

/// A recorded value that is passed to a recorded parameter which nothing needs is spilled where its argument counts as a use, and isn't
/// where it doesn't; the law's premises hold at once in both cases, but not where the parameter isn't recorded.
pub fn uncounted_example()
    ensures { UncountedExample }
{}

/// The row `loop` is a spilling, with an alias, two slots and a call with two entries, and the law's premises hold at once; with one slot
/// for both values they don't.
pub fn loop_example()
    ensures { LoopExample }
{}
