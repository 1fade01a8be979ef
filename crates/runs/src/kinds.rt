// The records of a kind by its number. Traffic (02, A5), the last kind before the end, is not among them: see `read_traffic_records`.
ghost use Rattle.std.specs.Prelude.{◌≤◌};
ghost use Rattle.rule.specs.Words.{words_of};
ghost use Rattle.table.specs.Whole.{Whole};
ghost use Rattle.runs.specs.Runs.{Before, KindRead};

use crate::run::{read_bridges, read_half_links, read_members, read_vids};
use rule::kinds::{BRIDGE, HALF_LINK, VID};
use rule::refusal::Refusal;
use table::shape::Shape;

// Reads the records of the kind, 1 to 4, where those of the kinds before it are read.
pub fn read_kind(
    table: &[u8],
    s: Shape,
    kind: u32,
    link_index: &mut [u32],
) -> Result<Shape, Refusal>
    requires { Whole table.now s × (1 ≤ kind) × (kind ≤ 4) × Before (words_of table.now) link_index.old kind s }
    ensures { KindRead (words_of table.now) link_index.new kind result }
{
    if kind == BRIDGE {
        return read_bridges(table, s);
    }
    if kind == HALF_LINK {
        return read_half_links(table, s, link_index);
    }
    if kind == VID {
        return read_vids(table, s);
    }
    read_members(table, s)
}
