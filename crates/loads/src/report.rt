// The loads of all pairs for an assignment of ECT indexes to the VIDs (02, A5), by trees from the store.
//
// Traffic is lent as words, four for each record: the number of its VID's record, its amount, from and to. An assignment is lent as the
// ECT index of each VID record.
ghost use Rattle.std.specs.Prelude.{◌≡◌, ◌+◌, ◌≤◌, length};
ghost use Rattle.trees.specs.Store.{TreesKept};
ghost use Rattle.loads.specs.Places.{Room};
ghost use Rattle.loads.specs.Reports.{TrafficReady, TrafficAdded, LoadsIn};

use crate::along::{Sums, add_labelled};
use crate::pair::clear_loads;
use labels::label::LABELS;
use trees::store::kept_tree;

// The words of a record.
pub const TRAFFIC_WORDS: usize = 4;

// Adds the record number `i`.
fn add_record(
    network: &[u32],
    indexes: &[u32],
    traffic: &[u32],
    i: usize,
    path_ids: &mut [u64],
    store: &mut [u32],
    loads: &mut [u32],
) -> Sums
    requires traffic_ready { TrafficReady network.now indexes.now traffic.now (i + 1) }
    requires in_bounds { (4096 ≤ length path_ids.old) × TreesKept network.now store.old }
    requires in_bounds_2 { (4096 ≤ length loads.old) × Room loads.old 65535 }
    ensures trees_kept { TreesKept network.now store.new }
    ensures traffic_added { TrafficAdded network.now indexes.now traffic.now i loads.old loads.new result }
{
    let at = TRAFFIC_WORDS * i;
    let index = indexes[traffic[at] as usize];
    let amount = traffic[at + 1];
    let from = traffic[at + 2] as usize;
    let to = traffic[at + 3] as usize;
    let place = kept_tree(network, index, to, path_ids, store);
    add_labelled(&store[place..place + LABELS], from, amount, loads)
}

// Writes the loads of all pairs by the first `count` records to the lent list, and gives total and lost.
pub fn write_loads(
    network: &[u32],
    indexes: &[u32],
    traffic: &[u32],
    count: usize,
    path_ids: &mut [u64],
    store: &mut [u32],
    loads: &mut [u32],
) -> Sums
    requires traffic_ready { TrafficReady network.now indexes.now traffic.now count × (count ≤ 256) }
    requires in_bounds { (4096 ≤ length path_ids.old) × TreesKept network.now store.old × (4096 ≤ length loads.old) }
    ensures trees_kept { TreesKept network.now store.new }
    ensures loads_in { LoadsIn network.now indexes.now traffic.now count loads.new result }
{
    clear_loads(loads);
    let mut total = 0;
    let mut lost = 0;
    for i in 0..count {
        let added = add_record(network, indexes, traffic, i, path_ids, store, loads);
        total += added.total;
        lost += added.lost;
    }
    Sums {
        total: total,
        lost: lost,
    }
}
