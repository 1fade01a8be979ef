// The entry lines of one bridge (01, "Listing program").
ghost use Rattle.std.specs.Prelude.{◌≤◌, ◌<◌, length};
ghost use Rattle.rule.specs.Words.{words_of};
ghost use Rattle.rule.specs.Calls.{plan_entries};
ghost use Rattle.table.specs.Positions.{plan_at};
ghost use Rattle.network.specs.Networks.{TableNetwork};
ghost use Rattle.trees.specs.Store.{TreesKept};
ghost use Rattle.text.specs.Text.{WrittenAt};
ghost use Rattle.listing_lines.specs.Listing.{entry_lines};

use entries::list::list_in_network;
use listing_lines::entry_line::write_entry_lines;
use table::shape::Shape;

// Writes the entry lines of the bridge `b`, "in list order", to the front of the lent bytes, and gives how many bytes they are. The
// words of its list are made in `words`: 14,931 at most, so 4,977 lines.
pub fn write_entry_lines_of(
    table: &[u8],
    s: Shape,
    network: &[u32],
    b: usize,
    path_ids: &mut [u64],
    store: &mut [u32],
    words: &mut [u32],
    out: &mut [u8],
) -> usize
    requires table_network { TableNetwork table.now s network.now × (b < s.bridges) × (14931 ≤ length words.old) × (258804 ≤ length out.old) }
    requires in_bounds { (4096 ≤ length path_ids.old) × TreesKept network.now store.old }
    ensures trees_kept { TreesKept network.now store.new }
    ensures written_at { WrittenAt 0 out.old out.new (entry_lines b (plan_entries (plan_at (words_of table.now) s) b)) result × (result ≤ 258804) }
{
    let count = list_in_network(table, s, network, b, path_ids, store, words);
    write_entry_lines(&words[..count], b as u32, out, 0)
}
