//! Bits along paths, under a collector that moves what is tracked.

ghost use Rattle.clif_paths.specs.Runs.{OneMapServesBoth, HoldersHaveTheSameBits};

/// One map from instances to bits serves the program's run and the function's.
pub fn one_map_serves_both()
    ensures { OneMapServesBoth }
{}

/// Where a value holds a variable or a name, their bits are the same.
pub fn holders_have_the_same_bits()
    ensures { HoldersHaveTheSameBits }
{}
