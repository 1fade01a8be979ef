// Rows kept by ECT index and start of the paths, each made of the kept tree.
ghost use Rattle.std.specs.Prelude.{◌≡◌, ◌+◌, ◌≤◌, ◌<◌, length};
ghost use Rattle.network.specs.Layout.{bridges_in};
ghost use Rattle.network.specs.Networks.{IsNetwork};
ghost use Rattle.trees.specs.Store.{TreesKept};
ghost use Rattle.egress.specs.Rows.{egress_row_at, HasEgressRow, EgressRowsKept, Kept};

use crate::leaving::write_egress_row;
use labels::label::LABELS;
use network::parts::bridges;
use rule::kinds::{MOST_BRIDGES, MOST_MEMBERS, MOST_VIDS};
use trees::store::kept_tree;

// The places that say where the row of an ECT index and a bridge begins.
const SLOTS: usize = 16 * MOST_BRIDGES;
// One row is added for each VID and for each member at most.
pub const ROWS: usize = SLOTS + (MOST_VIDS + MOST_MEMBERS) * MOST_BRIDGES;

// Keeps the row of the chosen paths from the bridge `a` for an ECT index, where it is not kept yet; `count` rows are kept. Gives how
// many are kept then. The list of the search and the store of trees are lent, so that a caller of many rows makes them once.
pub fn keep_egress_row(
    network: &[u32],
    hops: &[u16],
    b: u32,
    index: u32,
    a: usize,
    path_ids: &mut [u64],
    store: &mut [u32],
    egress_rows: &mut [u16],
    count: usize,
) -> usize
    requires network { IsNetwork network.now × (64 ≤ length hops.now) × (4096 ≤ length path_ids.old) × TreesKept network.now store.old }
    requires le_index { (1 ≤ index) × (index ≤ 16) × (a < bridges_in network.now) × (count < 80) × EgressRowsKept network.now hops.now b count egress_rows.old }
    ensures egress_rows_kept { EgressRowsKept network.now hops.now b result egress_rows.new }
    ensures kept { Kept egress_rows.old egress_rows.new × HasEgressRow egress_rows.new index a × (result ≤ count + 1) }
    ensures trees_kept { TreesKept network.now store.new }
{
    let slot = (index as usize - 1) * MOST_BRIDGES + a;
    if egress_rows[slot] != 0 {
        return count;
    }
    let from = kept_tree(network, index, a, path_ids, store);
    let place = SLOTS + MOST_BRIDGES * count;
    egress_rows[slot] = place as u16;
    write_egress_row(
        &store[from..from + LABELS],
        hops,
        b,
        bridges(network),
        egress_rows,
        place,
    );
    count + 1
}

// Where the row of the chosen paths from the bridge `a` for an ECT index begins.
pub fn egress_row_at(egress_rows: &[u16], index: u32, a: usize) -> usize
    requires { (1 ≤ index) × (index ≤ 16) × (a < 64) × (1024 ≤ length egress_rows.now) }
    ensures { result ≡ egress_row_at egress_rows.now index a }
{
    let slot = (index as usize - 1) * MOST_BRIDGES + a;
    usize::from(egress_rows[slot])
}
