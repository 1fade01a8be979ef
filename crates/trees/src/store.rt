// Trees kept from one call to the next in one lent list, a store of any number of lines: a line has a mark, which says the tree that it
// holds, and the tree's labels.
ghost use Rattle.std.specs.Prelude.{◌≡◌, ◌+◌, ◌%◌, ◌≤◌, ◌<◌, length, take, drop};
ghost use Rattle.network.specs.Layout.{bridges_in};
ghost use Rattle.network.specs.Networks.{IsNetwork, TreeIn};
ghost use Rattle.trees.specs.Store.{TreesKept};

use crate::plan_tree::tree_in_network;
use labels::label::LABELS;
use rule::kinds::MOST_BRIDGES;

// The words of a line.
pub const LINE: usize = 1 + LABELS;
// A store that has a line for every tree of a plan: 16 ECT indexes, 64 roots.
pub const EVERY_TREE: usize = 16 * MOST_BRIDGES * LINE;

// The line, of so many, that is the place of the tree number `slot`.
fn line_of(slot: usize, lines: usize) -> usize
    requires { 1 ≤ lines }
    ensures { (result ≡ slot % lines) × (result < lines) }
{
    slot % lines
}

// Where the labels of the tree for an ECT index and a root begin in the store. The tree is made where its line holds another or none.
pub fn kept_tree(
    network: &[u32],
    index: u32,
    root: usize,
    path_ids: &mut [u64],
    store: &mut [u32],
) -> usize
    requires network { IsNetwork network.now × (1 ≤ index) × (index ≤ 16) × (root < bridges_in network.now) }
    requires in_bounds { (4096 ≤ length path_ids.old) × TreesKept network.now store.old }
    ensures trees_kept { TreesKept network.now store.new }
    ensures result_in_bounds { (result + 320 ≤ length store.new) × TreeIn network.now index root (take 320 (drop result store.new)) }
{
    let slot = (index as usize - 1) * MOST_BRIDGES + root;
    let line = line_of(slot, store.len() / LINE);
    let at = LINE * line;
    let place = at + 1;
    if store[at] == slot as u32 + 1 {
        return place;
    }
    tree_in_network(
        network,
        index,
        root,
        &mut store[place..place + LABELS],
        path_ids,
    );
    store[at] = slot as u32 + 1;
    place
}
