// Trees of the chosen paths of a plan, from its network (01, "The chosen path").
ghost use Rattle.std.specs.Prelude.{◌≤◌, ◌<◌, length};
ghost use Rattle.rule.specs.Words.{words_of};
ghost use Rattle.table.specs.Positions.{plan_at};
ghost use Rattle.verdict.specs.Examination.{Checked, LinkIndex};
ghost use Rattle.network.specs.Layout.{bridges_in};
ghost use Rattle.network.specs.Networks.{IsNetwork, PlanTree, TreeIn};

use ect::mask::mask_of;
use network::bridges::write_keys;
use network::make::make_network;
use network::parts::{COSTS, IDENTIFIERS, NEIGHBOURS, NETWORK, PORTS, STARTS, bridges};
use rule::kinds::MOST_BRIDGES;
use table::shape::Shape;
use tree::search::{PATH_IDS, tree};

// The tree for an ECT index and a root. The list that the search keeps masked PATHIDs in is lent, so that a caller of many trees makes it
// once.
pub fn tree_in_network(
    network: &[u32],
    index: u32,
    root: usize,
    labels: &mut [u32],
    path_ids: &mut [u64],
)
    requires { IsNetwork network.now × (1 ≤ index) × (index ≤ 16) × (root < bridges_in network.now) × (320 ≤ length labels.old) × (4096 ≤ length path_ids.old) }
    ensures { TreeIn network.now index root labels.new }
{
    let mut keys = [0u64; MOST_BRIDGES];
    let mask = mask_of(index);
    write_keys(network, mask, &mut keys);
    let n = bridges(network);
    tree(
        &network[STARTS..IDENTIFIERS],
        &network[NEIGHBOURS..COSTS],
        &network[COSTS..PORTS],
        &keys,
        labels,
        path_ids,
        n,
        root,
    );
}

// The tree for an ECT index and a root of a checked table.
pub fn tree_of_table(
    table: &[u8],
    s: Shape,
    link_index: &[u32],
    index: u32,
    root: usize,
    labels: &mut [u32],
)
    requires { Checked table.now s × (1 ≤ index) × (index ≤ 16) × (root < s.bridges) × (320 ≤ length labels.old) × LinkIndex link_index.now table.now s }
    ensures { PlanTree (plan_at (words_of table.now) s) index root labels.new }
{
    let mut network = [0u32; NETWORK];
    make_network(table, s, link_index, &mut network);
    // After the network, so that the compiled code can lay it over what making the network needs.
    let mut path_ids = [0u64; PATH_IDS];
    tree_in_network(&network, index, root, labels, &mut path_ids);
}
