// The parts of a listing by their numbers, in order (01, "Listing program"; 02, A5).
ghost use Rattle.std.specs.Prelude.{◌≡◌, ◌≤◌, ◌<◌, length};
ghost use Rattle.rule.specs.Words.{words_of};
ghost use Rattle.rule.specs.Calls.{counts_of};
ghost use Rattle.table.specs.Positions.{plan_at};
ghost use Rattle.network.specs.Networks.{TableNetwork};
ghost use Rattle.trees.specs.Store.{TreesKept};
ghost use Rattle.text.specs.Text.{WrittenAt};
ghost use Rattle.listing_parts.specs.Parts.{part_count, parts_of_shape, listing_part};

use crate::entry_lines::write_entry_lines_of;
use crate::path_lines::write_path_lines;
use check_text::check::write_counts;
use entries::list::LONGEST_LIST;
use load_lines::report::write_load_report;
use rule::answer::Counts;
use table::shape::Shape;

// The bytes of the longest part: an entry line of 52 bytes for each entry of the longest list, of 3 words each.
pub const LONGEST_PART: usize = 52 * (LONGEST_LIST / 3);

// How many parts the listing of a table has.
pub fn part_count(s: Shape) -> usize
    requires { (s.bridges ≤ 64) × (s.vids ≤ 16) }
    ensures { result ≡ parts_of_shape s }
{
    let before_report = 1 + s.vids * s.bridges + s.bridges;
    if s.traffic == 0 {
        return before_report;
    }
    before_report + 1
}

// Writes the part number `part` to the front of the lent bytes, and gives how many bytes it is. `counts` are those of the table.
pub fn write_part(
    table: &[u8],
    s: Shape,
    counts: Counts,
    network: &[u32],
    part: usize,
    path_ids: &mut [u64],
    store: &mut [u32],
    words: &mut [u32],
    out: &mut [u8],
) -> usize
    requires table_network { TableNetwork table.now s network.now × (counts ≡ counts_of (plan_at (words_of table.now) s)) × (part < part_count (plan_at (words_of table.now) s)) }
    requires in_bounds { (4096 ≤ length path_ids.old) × TreesKept network.now store.old × (14931 ≤ length words.old) × (258804 ≤ length out.old) }
    ensures trees_kept { TreesKept network.now store.new }
    ensures written_at { WrittenAt 0 out.old out.new (listing_part (plan_at (words_of table.now) s) part) result × (result ≤ 258804) }
{
    if part == 0 {
        return write_counts(counts, out, 0);
    }
    let pair = part - 1;
    let pairs = s.vids * s.bridges;
    if pair < pairs {
        return write_path_lines(
            table,
            s,
            network,
            pair / s.bridges,
            pair % s.bridges,
            path_ids,
            store,
            out,
        );
    }
    let bridge = pair - pairs;
    if bridge < s.bridges {
        return write_entry_lines_of(table, s, network, bridge, path_ids, store, words, out);
    }
    write_load_report(table, s, network, path_ids, store, out)
}
