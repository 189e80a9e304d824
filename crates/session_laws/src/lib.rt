#![tactic(auto)]

// The theory of coalescing sessions. There is nothing to run: each function's contract is a theorem, so that none goes unproved.
ghost use Rattle.session_laws.specs.Merging.{BriggsKeeps, GeorgeKeeps, GeorgeKeepsTurned, EmptiesDecides};
ghost use Rattle.session_laws.specs.Laws.{Always, StaysEmptiable, ColoursSoundly, NamesLowest, NeverPushes, ColoursAll, ColoursUnpushed, BoundedSteps, RunKeeps};
ghost use Rattle.session_laws.specs.Steps.{OpensWell, Keeps};
ghost use Rattle.session_laws.specs.Exactness.{Grants};
ghost use Rattle.session_laws.specs.Reaching.{Reaches};
ghost use Rattle.session_laws.specs.Examples.{PathEmpties, TriangleStays, PathWorked, TriangleWorked};

// Once the standing graph can be emptied, it can be after every later call.
pub fn stays_emptiable()
    ensures { Always StaysEmptiable }
{}

// Every granted colour gives joined vertices different registers, a group one answer, and a fixed vertex its own number.
pub fn colours_soundly()
    ensures { Always ColoursSoundly }
{}

// The merge table maps each vertex to the lowest of its group.
pub fn names_lowest()
    ensures { Always NamesLowest }
{}

// From a graph that can be emptied, nothing is spilled: no push is granted, and colour leaves no vertex out.
pub fn never_spills()
    ensures pushes { Always NeverPushes }
    ensures colours { Always ColoursAll }
    ensures unpushed { Always ColoursUnpushed }
{}

// A run has no more granted steps than loose vertices and moves.
pub fn bounded_steps()
    ensures { Always BoundedSteps }
{}

// All of these, of one run.
pub fn runs_keep()
    ensures { Always RunKeeps }
{}

// What one call adds to all of these, in a state that a session can reach.
pub fn one_call()
    ensures opening { OpensWell }
    ensures call { Keeps }
    ensures granted { Grants }
{}

// What holds in every state that a run leads to, and how the next call hands it on.
pub fn reaches()
    ensures { Reaches }
{}

// The tests for merging two vertices.
pub fn tests_keep()
    ensures briggs { BriggsKeeps }
    ensures george { GeorgeKeeps }
    ensures turned { GeorgeKeepsTurned }
{}

// Taking away one vertex of low degree after the other tells whether a graph can be emptied.
pub fn peeling_decides()
    ensures { EmptiesDecides }
{}

// With two registers a path can be emptied and a triangle cannot; a run over each.
pub fn witnesses()
    ensures path { PathEmpties }
    ensures triangle { TriangleStays }
    ensures merging { PathWorked }
    ensures pushing { TriangleWorked }
{}
