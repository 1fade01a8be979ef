// The load report of a table, for its own ECT indexes (02, A5).
ghost use Rattle.std.specs.Prelude.{◌≤◌, length};
ghost use Rattle.rule.specs.Words.{words_of};
ghost use Rattle.table.specs.Positions.{plan_at};
ghost use Rattle.network.specs.Networks.{TableNetwork};
ghost use Rattle.trees.specs.Store.{TreesKept};
ghost use Rattle.text.specs.Text.{WrittenAt};
ghost use Rattle.listing_lines.specs.Listing.{load_report};

use crate::pair_line::write_sums;
use crate::pair_lines::write_pair_lines;
use loads::pair::LOADS;
use loads::report::{TRAFFIC_WORDS, write_loads};
use loads::traffic::{write_indexes, write_traffic};
use rule::kinds::{MOST_TRAFFIC, MOST_VIDS};
use table::shape::Shape;

// Writes the report to the front of the lent bytes, and gives how many bytes it is.
pub fn write_load_report(
    table: &[u8],
    s: Shape,
    network: &[u32],
    path_ids: &mut [u64],
    store: &mut [u32],
    out: &mut [u8],
) -> usize
    requires table_network { TableNetwork table.now s network.now × (155682 ≤ length out.old) }
    requires in_bounds { (4096 ≤ length path_ids.old) × TreesKept network.now store.old }
    ensures trees_kept { TreesKept network.now store.new }
    ensures written_at { WrittenAt 0 out.old out.new (load_report (plan_at (words_of table.now) s)) result × (result ≤ 155682) }
{
    let mut words = [0u32; TRAFFIC_WORDS * MOST_TRAFFIC];
    let mut indexes = [0u32; MOST_VIDS];
    let mut loads = [0u32; LOADS];
    write_traffic(table, s, &mut words);
    write_indexes(table, s, &mut indexes);
    let sums = write_loads(
        network,
        &indexes[..s.vids],
        &words,
        s.traffic,
        path_ids,
        store,
        &mut loads,
    );
    let after_pairs = write_pair_lines(network, &loads, out);
    write_sums(sums.total, sums.lost, out, after_pairs)
}
