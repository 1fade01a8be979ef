// The path lines of one VID and from (01, "Listing program").
ghost use Rattle.std.specs.Prelude.{◌*◌, ◌≤◌, ◌<◌, length};
ghost use Rattle.rule.specs.Words.{words_of};
ghost use Rattle.table.specs.Positions.{plan_at};
ghost use Rattle.table.specs.Numbered.{vid_number};
ghost use Rattle.network.specs.Networks.{TableNetwork};
ghost use Rattle.trees.specs.Store.{TreesKept};
ghost use Rattle.text.specs.Text.{WrittenAt};
ghost use Rattle.listing_lines.specs.Listing.{path_lines};

use crate::labelled_line::write_path_line;
use labels::label::LABELS;
use table::records::vid;
use table::shape::Shape;
use trees::store::kept_tree;

// Writes the path lines of the VID number `k` from the bridge `from`, "by to", to the front of the lent bytes, and gives how many bytes
// they are: each by the tree that is rooted at `to`. Trees are kept, so that each is made once for all lines that need it.
pub fn write_path_lines(
    table: &[u8],
    s: Shape,
    network: &[u32],
    k: usize,
    from: usize,
    path_ids: &mut [u64],
    store: &mut [u32],
    out: &mut [u8],
) -> usize
    requires table_network { TableNetwork table.now s network.now × (k < s.vids) × (from < s.bridges) }
    requires in_bounds { (4096 ≤ length path_ids.old) × TreesKept network.now store.old × (764 * s.bridges ≤ length out.old) }
    ensures trees_kept { TreesKept network.now store.new }
    ensures written_at { WrittenAt 0 out.old out.new (path_lines (plan_at (words_of table.now) s) (vid_number (words_of table.now) s k).vid from) result × (result ≤ 764 * s.bridges) }
{
    let v = vid(table, s, k);
    let mut next = 0;
    for to in 0..s.bridges {
        if to == from {
            continue;
        }
        let place = kept_tree(network, v.index, to, path_ids, store);
        next = write_path_line(
            &store[place..place + LABELS],
            v.vid,
            from as u32,
            to as u32,
            out,
            next,
        );
    }
    next
}
