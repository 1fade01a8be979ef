// The search for the tree of chosen paths to a root (01, "The chosen path"): again and again the nearest bridge that waits is settled
// and, where it may lie between (02, A1), its neighbours are relaxed, until none waits.
ghost use Rattle.std.specs.Prelude.{◌≡◌, ◌≤◌, ◌<◌, length};
ghost use Rattle.labels.specs.Nearest.{BoundsOf};
ghost use Rattle.tree.specs.Trees.{Represented, IsTree};
ghost use Rattle.tree.specs.Tracked.{Advanceable, Advanced, Finished, Noted};

use crate::marks::may_lie_between;
use crate::settle::{begin, settle};
use labels::label::waits_at;
use labels::nearest::{GROUPS, next_waiting};
use labels::relax::relax_all;
use measures::measure::Cost;
use rule::kinds::MOST_BRIDGES;

// The words of the list that the search keeps masked PATHIDs in: one for each bridge, with a place for each bridge.
pub const PATH_IDS: usize = MOST_BRIDGES * MOST_BRIDGES;

// Settles the bridge `u`, which waits at the least cost, and offers its neighbours the way through it where it may lie between.
fn advance(
    starts: &[u32],
    neighbours: &[u32],
    costs: &[u32],
    keys: &[u64],
    labels: &mut [u32],
    path_ids: &mut [u64],
    bounds: &mut [u32],
    root: usize,
    u: usize,
)
    requires { Advanceable starts.now neighbours.now costs.now keys.now root labels.old path_ids.old u × BoundsOf labels.old bounds.old }
    ensures { Advanced starts.now neighbours.now costs.now keys.now root u labels.old path_ids.old labels.new path_ids.new × BoundsOf labels.new bounds.new }
{
    settle(labels, path_ids, keys, root, u);
    if may_lie_between(starts, u) {
        relax_all(starts, neighbours, costs, &path_ids[..], labels, bounds, u);
    }
}

// Settles bridge after bridge until none waits. Notes them in `order` as they are settled, and gives how many they are.
fn settle_all(
    starts: &[u32],
    neighbours: &[u32],
    costs: &[u32],
    keys: &[u64],
    labels: &mut [u32],
    path_ids: &mut [u64],
    order: &mut [u32],
    n: usize,
    root: usize,
) -> usize
    requires { Represented n starts.now neighbours.now costs.now keys.now × (root < n) × (320 ≤ length labels.old) × (4096 ≤ length path_ids.old) × (length order.old ≡ 64) }
    ensures { Finished n starts.now neighbours.now costs.now keys.now root labels.new path_ids.new order.new result }
{
    // No bridge waits yet, so no bound is too high.
    let mut bounds = [Cost::NO_PATH.0; GROUPS];
    begin(labels, path_ids, keys, root);
    relax_all(
        starts,
        neighbours,
        costs,
        &path_ids[..],
        labels,
        &mut bounds,
        root,
    );
    order[0] = root as u32;
    let mut count = 1;
    let mut u = next_waiting(&labels[..], &mut bounds);
    while waits_at(&labels[..], u).is_below(Cost::NO_PATH) {
        advance(
            starts,
            neighbours,
            costs,
            keys,
            labels,
            path_ids,
            &mut bounds,
            root,
            u,
        );
        order[count] = u as u32;
        count += 1;
        u = next_waiting(&labels[..], &mut bounds);
    }
    count
}

// Leaves the first `count` places of `order` in the first part of the labels, where no cost is needed any more.
fn note_order(order: &[u32], count: usize, labels: &mut [u32])
    requires { (count ≤ length order.now) × (count ≤ length labels.old) }
    ensures { Noted order.now count labels.old labels.new }
{
    labels[..count].copy_from_slice(&order[..count]);
}

// For each of the `n` bridges the cost, the hops, the next hop towards the root and the first hop from the root of its chosen path to
// the root; `Cost::NO_PATH` where no path exists. The first part of the labels holds the bridges that have a path, each after its next
// hop.
pub fn tree(
    starts: &[u32],
    neighbours: &[u32],
    costs: &[u32],
    keys: &[u64],
    labels: &mut [u32],
    path_ids: &mut [u64],
    n: usize,
    root: usize,
)
    requires { Represented n starts.now neighbours.now costs.now keys.now × (root < n) × (320 ≤ length labels.old) × (4096 ≤ length path_ids.old) }
    ensures { IsTree n starts.now neighbours.now costs.now keys.now root labels.new }
{
    let mut order = [0u32; MOST_BRIDGES];
    let count = settle_all(
        starts, neighbours, costs, keys, labels, path_ids, &mut order, n, root,
    );
    note_order(&order, count, labels);
}
