// Rows of ports by which the chosen paths from a root leave a bridge, from the labels of the root's tree.
ghost use Rattle.std.specs.Prelude.{◌≡◌, cond, eqb, ◌+◌, ◌≤◌, ◌<◌, length, set};
ghost use Rattle.lists.specs.Appending.{Appended};
ghost use Rattle.labels.specs.Labels.{label_at};
ghost use Rattle.egress.specs.Leaving.{port_through, egress_row_by, Walkable};

use crate::hops::clear;
use labels::label::next_number;
use measures::measure::Cost;

// The port by which the path to a bridge leaves the bridge `b`: that of its last hop where this starts at `b`, else the port by which
// the path to its next hop leaves `b`.
fn port_through(next: u32, b: u32, last_hop: u16, by_next: u16) -> u16
    ensures { result ≡ cond (eqb next b) last_hop by_next }
{
    if next == b { last_hop } else { by_next }
}

// Writes the port of the bridge `d` into the row, which has that of its next hop.
fn write_port(labels: &[u32], hops: &[u16], b: u32, d: usize, row: &mut [u16])
    requires { (d < 64) × ((label_at labels.now d).next < 64) × (320 ≤ length labels.now) × (64 ≤ length hops.now) × (d < length row.old) × ((label_at labels.now d).next < length row.old) }
    ensures { row.new ≡ set row.old d (port_through labels.now hops.now b row.old d) }
{
    let next = next_number(labels, d);
    row[d] = port_through(next, b, hops[d], row[next as usize]);
}

// The row of these ports for the first `n` bridges, 0 where the path does not pass `b` or ends there. Each bridge comes after its next
// hop, so one pass is enough.
fn fill_row(labels: &[u32], hops: &[u16], b: u32, n: usize, row: &mut [u16])
    requires { Walkable labels.now n × (320 ≤ length labels.now) × (64 ≤ length hops.now) × (length row.old ≡ n) }
    ensures { row.new ≡ egress_row_by labels.now hops.now b n }
{
    clear(row, n);
    for k in 1..n {
        let d = labels[k];
        if d == Cost::NO_PATH.0 {
            return;
        }
        write_port(labels, hops, b, d as usize, row);
    }
}

// The same row, written from the place `at` on.
pub fn write_egress_row(
    labels: &[u32],
    hops: &[u16],
    b: u32,
    n: usize,
    egress_rows: &mut [u16],
    at: usize,
)
    requires { Walkable labels.now n × (320 ≤ length labels.now) × (64 ≤ length hops.now) × (at + n ≤ length egress_rows.old) }
    ensures { Appended egress_rows.old at (egress_row_by labels.now hops.now b n) egress_rows.new (at + n) }
{
    fill_row(labels, hops, b, n, &mut egress_rows[at..at + n]);
}
