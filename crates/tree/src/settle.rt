// Settling: a bridge gets its row and its first hop from the root, and waits no more.
ghost use Rattle.std.specs.Prelude.{◌≡◌, cond, eqb, ◌≤◌, ◌<◌, length, get_or};
ghost use Rattle.labels.specs.Labels.{settled_labels, settled_path_ids};
ghost use Rattle.tree.specs.Settling.{Settleable, Cleared, Begun};

use ect::row::insert_row;
use labels::label::{COSTS, FIRST_HOPS, HOPS, NEXT_HOPS, hops_at, next_at};
use measures::measure::Cost;
use rule::kinds::MOST_BRIDGES;

// The first hop from the root on the way to the bridge `u`: `u` itself, or that on the way to its next hop.
fn first_hop(u: u32, next: usize, root: usize, first: u32) -> u32
    ensures { result ≡ cond (eqb next root) u first }
{
    if next == root { u } else { first }
}

// Settles the bridge `u` with its label.
pub fn settle(labels: &mut [u32], path_ids: &mut [u64], keys: &[u64], root: usize, u: usize)
    requires { Settleable labels.old path_ids.old keys.now u }
    ensures { (labels.new ≡ settled_labels labels.old root u) × (path_ids.new ≡ settled_path_ids labels.old path_ids.old u (get_or keys.now u 0)) }
{
    let next = next_at(&labels[..], u);
    insert_row(path_ids, next, u, hops_at(&labels[..], u).count(), keys[u]);
    labels[FIRST_HOPS + u] = first_hop(u as u32, next, root, labels[FIRST_HOPS + next]);
    labels[u] = Cost::NO_PATH.0;
}

// No bridge has a label: the costs that wait and the costs, which stand one after the other, say that there is no path.
fn clear(labels: &mut [u32])
    requires { 320 ≤ length labels.old }
    ensures { Cleared 64 labels.old labels.new }
{
    labels[..COSTS + MOST_BRIDGES].fill(Cost::NO_PATH.0);
}

// The root alone is settled: "a path from a bridge to itself is that bridge, cost 0, hops 0".
pub fn begin(labels: &mut [u32], path_ids: &mut [u64], keys: &[u64], root: usize)
    requires { (root < 64) × (320 ≤ length labels.old) × (4096 ≤ length path_ids.old) × (root < length keys.now) }
    ensures { Begun root (get_or keys.now root 0) labels.old path_ids.old labels.new path_ids.new }
{
    clear(labels);
    labels[COSTS + root] = 0;
    labels[HOPS + root] = 0;
    labels[NEXT_HOPS + root] = root as u32;
    labels[FIRST_HOPS + root] = root as u32;
    path_ids[root * 64] = keys[root];
}
