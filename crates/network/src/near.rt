// The index of near bridges, by which the half-links of a bridge are found without a search among all.
ghost use Rattle.std.specs.Prelude.{◌≤◌};
ghost use Rattle.key_index.specs.Index.{Indexed};
ghost use Rattle.table.specs.Whole.{Whole};
ghost use Rattle.network.specs.Rows.{NearIndex};

use key_index::entry::enter;
use table::records::half_link;
use table::shape::Shape;

// Enters the near bridge of each half-link into an index that has no key yet.
pub fn enter_near_bridges(table: &[u8], s: Shape, near_index: &mut [u32])
    requires { Whole table.now s × (s.half_links ≤ 512) × Indexed near_index.old 0 }
    ensures { NearIndex near_index.new table.now s }
{
    for i in 0..s.half_links {
        let h = half_link(table, s, i);
        enter(near_index, i, h.near);
    }
}
