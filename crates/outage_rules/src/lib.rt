// What a diagnosis is, and what a table of rows shows of it.
#![tactic(auto)]

ghost use Rattle.outage_rules.specs.Laws.{CheckIsSound, LiveIsAWalk, OneDiagnosis, RowIsLeast, FlagsAreDiagnosis, RadialIsForest, TestedIsDiagnosis, DiagnosisIsOne, ReferenceIsDiagnosis, RadialStays, TreeIsRadial, LeastCostIsLeast, OneLeastCost, SummedRowsAreLeast, NothingCostsNothing, EqualReportsEqualProblems};
ghost use Rattle.outage_rules.specs.Agreement.{TablesAgree, ReferenceTableIsExact, ExactTableIsReference};
ghost use Rattle.outage_rules.specs.TightLaws.{TightPasses, RowsAreBounded, LeastIsBounded, DistanceIsBounded};
ghost use Rattle.outage_rules.specs.Loops.{LoopIsAWalk, RadialHasNoLoop, RadialBefore, ForestIsRadial, RadialByRoots};

/// A table that passes the local check shows that no feasible cut costs less than its own.
pub fn check_is_sound()
    ensures { CheckIsSound }
{}

/// The test of liveness says whether there is a walk.
pub fn live_is_a_walk()
    ensures { LiveIsAWalk }
{}

/// Where there is a table with exact rows, there is one diagnosis and no other.
pub fn one_diagnosis()
    ensures { OneDiagnosis }
{}

/// An exact row is the least cost of its part.
pub fn row_is_least()
    ensures { RowIsLeast }
{}

/// Flags that agree with exact rows are those of the diagnosis.
pub fn flags_are_diagnosis()
    ensures { FlagsAreDiagnosis }
{}

/// Of a radial network a traversal makes a forest.
pub fn radial_is_forest()
    ensures { RadialIsForest }
{}

/// Where the test of its table passes, the computed cut is the diagnosis.
pub fn tested_is_diagnosis()
    ensures { TestedIsDiagnosis }
{}

/// Two diagnoses are the same set of the network's devices.
pub fn diagnosis_is_one()
    ensures { DiagnosisIsOne }
{}

/// A radial network has a diagnosis: the computed cut.
pub fn reference_is_diagnosis()
    ensures { ReferenceIsDiagnosis }
{}

/// Closing a device that doesn't loop leaves the network radial.
pub fn radial_stays()
    ensures { RadialStays }
{}

/// A network whose devices stand in tree order is radial.
pub fn tree_is_radial()
    ensures { TreeIsRadial }
{}

/// In a radial network the computed cut has the least cost.
pub fn least_cost_is_least()
    ensures { LeastCostIsLeast }
{}

/// There is one least cost and no other.
pub fn one_least_cost()
    ensures { OneLeastCost }
{}

/// In a tree with dark reports alone, the summed rows of the sources are the least cost.
pub fn summed_rows_are_least()
    ensures { SummedRowsAreLeast }
{}

/// Without reports and marks the least cost is 0.
pub fn nothing_costs_nothing()
    ensures { NothingCostsNothing }
{}

/// Problems whose dark weights are equal at each node are equal.
pub fn equal_reports_equal_problems()
    ensures { EqualReportsEqualProblems }
{}

/// In a radial network all tables with exact rows say the same of each node.
pub fn tables_agree()
    ensures { TablesAgree }
{}

/// The computed table of a radial network is a forest with exact rows.
pub fn reference_table_is_exact()
    ensures { ReferenceTableIsExact }
{}

/// In a radial network a forest with exact rows is the computed table.
pub fn exact_table_is_reference()
    ensures { ExactTableIsReference }
{}

/// In a radial network the computed table, its cut and its cost pass the local check.
pub fn tight_passes()
    ensures { TightPasses }
{}

/// No exact row costs more than all reports and all marked devices.
pub fn rows_are_bounded()
    ensures { RowsAreBounded }
{}

/// Nor does the least cost.
pub fn least_is_bounded()
    ensures { LeastIsBounded }
{}

/// A shortest walk has at most as many devices as there are nodes.
pub fn distance_is_bounded()
    ensures { DistanceIsBounded }
{}

/// Closing a device closes a loop exactly where a walk joins its ends, or where both of them are live.
pub fn loop_is_a_walk()
    ensures { LoopIsAWalk }
{}

/// A network is radial exactly where there is no first device that closes a loop.
pub fn radial_has_no_loop()
    ensures { RadialHasNoLoop }
{}

/// The first devices are radial exactly where none of them closes a loop.
pub fn radial_before()
    ensures { RadialBefore }
{}

/// A forest that lists all nodes shows that the network is radial.
pub fn forest_is_radial()
    ensures { ForestIsRadial }
{}

/// Sources that no walk joins to another source may be added: they don't change whether the network is radial.
pub fn radial_by_roots()
    ensures { RadialByRoots }
{}
