// Questions: path, tree and entries into lists of so many untouched places, each as one line.
ghost use Rattle.std.specs.Prelude.{◌≤◌, length};
ghost use Rattle.rule.specs.Calls.{path_outcome, tree_outcome, entries_outcome};
ghost use Rattle.text.specs.Text.{WrittenAt};
ghost use Rattle.probe_input.specs.Lent.{untouched};
ghost use Rattle.probe_calls.specs.AnswerText.{path_text, tree_text, entries_text};

use crate::lent::{MOST_PLACES, MOST_WORDS};
use crate::line::{write_entries, write_path, write_tree};
use probe_input::lent::set_untouched;

// The bytes of a path's line at most: an answer of 40, a field of 11 for each place, and its end.
pub const PATH_LINE: usize = 41 + 11 * MOST_PLACES;

// The bytes of a tree's line at most.
pub const TREE_LINE: usize = 41 + 33 * MOST_PLACES;

// The bytes of the line of a bridge's entries at most.
pub const ENTRIES_LINE: usize = 41 + 11 * MOST_WORDS;

// The line of a path at the front of the lent bytes, and its length.
pub fn write_asked_path(
    table: &[u8],
    vid: u32,
    from: u32,
    to: u32,
    places: usize,
    out: &mut [u8],
) -> usize
    requires { (places ≤ 80) × (921 ≤ length out.old) }
    ensures { WrittenAt 0 out.old out.new (path_text (path_outcome table.now vid from to (untouched places))) result × (result ≤ length out.old) }
{
    let mut list = [0u32; MOST_PLACES];
    set_untouched(&mut list);
    write_path(table, vid, from, to, &mut list[..places], out)
}

// The line of a tree at the front of the lent bytes, and its length.
pub fn write_asked_tree(
    table: &[u8],
    vid: u32,
    from: u32,
    cost_places: usize,
    hop_places: usize,
    last_places: usize,
    out: &mut [u8],
) -> usize
    requires { (cost_places ≤ 80) × (hop_places ≤ 80) × (last_places ≤ 80) × (2681 ≤ length out.old) }
    ensures { WrittenAt 0 out.old out.new (tree_text (tree_outcome table.now vid from (untouched cost_places) (untouched hop_places) (untouched last_places))) result × (result ≤ length out.old) }
{
    let mut costs = [0u32; MOST_PLACES];
    set_untouched(&mut costs);
    let mut hops = [0u32; MOST_PLACES];
    set_untouched(&mut hops);
    let mut lasts = [0u32; MOST_PLACES];
    set_untouched(&mut lasts);
    write_tree(
        table,
        vid,
        from,
        &mut costs[..cost_places],
        &mut hops[..hop_places],
        &mut lasts[..last_places],
        out,
    )
}

// The line of a bridge's entries at the front of the lent bytes, and its length.
pub fn write_asked_entries(table: &[u8], bridge: u32, places: usize, out: &mut [u8]) -> usize
    requires { (places ≤ 14932) × (164293 ≤ length out.old) }
    ensures { WrittenAt 0 out.old out.new (entries_text (entries_outcome table.now bridge (untouched places))) result × (result ≤ length out.old) }
{
    let mut list = [0u32; MOST_WORDS];
    set_untouched(&mut list);
    write_entries(table, bridge, &mut list[..places], out)
}
