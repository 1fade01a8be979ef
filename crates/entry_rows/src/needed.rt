// The rows that the entries of a bridge need: one for each different ECT index and bridge among the bridge itself and the
// transmitting members, of the trees kept in the lent store.
ghost use Rattle.std.specs.Prelude.{◌≡◌, ◌≤◌, length};
ghost use Rattle.rule.specs.Words.{words_of};
ghost use Rattle.table.specs.Positions.{plan_at};
ghost use Rattle.table.specs.Whole.{Whole};
ghost use Rattle.readers.specs.Readers.{member_values};
ghost use Rattle.trees.specs.Store.{TreesKept};
ghost use Rattle.egress.specs.Rows.{EgressRowsKept, Kept};
ghost use Rattle.entry_rows.specs.Needed.{HopsReady, OwnEgressRows, EgressRowsReady, transmitter_index};

use egress::rows::keep_egress_row;
use readers::member::Member;
use table::records::{index_of, member, vid};
use table::shape::Shape;

// Keeps the rows of the bridge's own paths for all VIDs. Gives how many rows are kept.
fn keep_own_egress_rows(
    table: &[u8],
    s: Shape,
    network: &[u32],
    hops: &[u16],
    b: usize,
    path_ids: &mut [u64],
    store: &mut [u32],
    egress_rows: &mut [u16],
) -> usize
    requires { HopsReady table.now s network.now hops.now b × (4096 ≤ length path_ids.old) × TreesKept network.now store.old × EgressRowsKept network.now hops.now b 0 egress_rows.old }
    ensures egress_rows_kept { EgressRowsKept network.now hops.now b result egress_rows.new }
    ensures kept { Kept egress_rows.old egress_rows.new × OwnEgressRows table.now s b egress_rows.new s.vids × (result ≤ s.vids) }
    ensures trees_kept { TreesKept network.now store.new }
{
    let mut count = 0;
    for k in 0..s.vids {
        let v = vid(table, s, k);
        count = keep_egress_row(
            network,
            hops,
            b as u32,
            v.index,
            b,
            path_ids,
            store,
            egress_rows,
            count,
        );
    }
    count
}

// The ECT index of the VID of a member that transmits, 0 of one that does not.
fn transmitter_index(table: &[u8], s: Shape, m: Member) -> u32
    requires { Whole table.now s }
    ensures { result ≡ transmitter_index (plan_at (words_of table.now) s) (member_values m) }
{
    if !m.transmits {
        return 0;
    }
    index_of(table, s, m.vid)
}

// Keeps all rows that the entries of the bridge `b` need.
pub fn keep_egress_rows(
    table: &[u8],
    s: Shape,
    network: &[u32],
    hops: &[u16],
    b: usize,
    path_ids: &mut [u64],
    store: &mut [u32],
    egress_rows: &mut [u16],
)
    requires { HopsReady table.now s network.now hops.now b × (4096 ≤ length path_ids.old) × TreesKept network.now store.old × EgressRowsKept network.now hops.now b 0 egress_rows.old }
    ensures egress_rows_ready { EgressRowsReady table.now s b egress_rows.new }
    ensures trees_kept { TreesKept network.now store.new }
{
    let mut count = keep_own_egress_rows(table, s, network, hops, b, path_ids, store, egress_rows);
    for j in 0..s.members {
        let m = member(table, s, j);
        let a = m.bridge as usize;
        let index = transmitter_index(table, s, m);
        if index == 0 {
            continue;
        }
        count = keep_egress_row(
            network,
            hops,
            b as u32,
            index,
            a,
            path_ids,
            store,
            egress_rows,
            count,
        );
    }
}
