//! What kept costs say.
ghost use Rattle.subtree_costs.specs.Laws.{RowsAreLeast, TotalIsLeast, FedRowsAreExact, ChainsAreWithinReach, EachNodeHasAReach};
ghost use Rattle.subtree_costs.specs.Walks.{ChangesStayOnWalks};

use outage_rules::{
    exact_table_is_reference, least_cost_is_least, live_is_a_walk, row_is_least, tight_passes,
};

/// Each kept row is the least cost of its part where its node is live, and the cost where it is dark.
pub fn rows_are_least()
    ensures { RowsAreLeast }
{
    row_is_least();
}

/// The kept total is the least cost over all feasible sets.
pub fn total_is_least()
    ensures { TotalIsLeast }
{
    fed_rows_are_exact();
    exact_table_is_reference();
    tight_passes();
    least_cost_is_least();
}

/// Over the fed nodes the kept rows are an exact table of what is posed, and the total is its bound.
pub fn fed_rows_are_exact()
    ensures { FedRowsAreExact }
{
    live_is_a_walk();
    exact_table_is_reference();
}

/// No chain of devices from a node up to its root is longer than the node's reach.
pub fn chains_are_within_reach()
    ensures { ChainsAreWithinReach }
{
    fed_rows_are_exact();
}

/// Each node of a sound network has a reach: a fed one its distance from its source, and another one
/// the length of the longest simple walk of closed devices from it.
pub fn each_node_has_a_reach()
    ensures { EachNodeHasAReach }
{}

/// What changes at places alone, weights of reports and marks over the same trees, changes no row off
/// the walks from the places up to their roots.
pub fn changes_stay_on_walks()
    ensures { ChangesStayOnWalks }
{}
