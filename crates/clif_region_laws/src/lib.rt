//! Alias regions mean nothing to the machines: functions that differ only in the regions that loads and stores name show alike. The
//! functions here have empty bodies, and their contracts are the laws of the definitions.
#![tactic(auto)]

ghost use Rattle.clif_region_laws.specs.Examples.{RegionExamples};
ghost use Rattle.clif_region_laws.specs.Laws.{AlikeFunctionsMeanTheSame, RegionsMeanNothing};

/// A function runs, means, and is placed as it is without its regions.
pub fn regions_mean_nothing()
    ensures { RegionsMeanNothing }
{}

/// Functions that are alike but for regions mean the same scripts.
pub fn alike_functions_mean_the_same()
    ensures { AlikeFunctionsMeanTheSame }
{}

/// A function with a region and without it, and functions that differ in more.
pub fn region_examples()
    ensures { RegionExamples }
{}
