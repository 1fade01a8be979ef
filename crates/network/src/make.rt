// The network of a checked table.
ghost use Rattle.std.specs.Prelude.{◌≡◌, length};
ghost use Rattle.verdict.specs.Examination.{Checked, LinkIndex};
ghost use Rattle.network.specs.Layout.{network_words};
ghost use Rattle.network.specs.Networks.{TableNetwork};

use crate::bridges::write_bridges;
use crate::hops::list_neighbours;
use crate::near::enter_near_bridges;
use crate::parts::{BRIDGES, MARKS};
use key_index::chain::INDEX;
use table::shape::Shape;

pub fn make_network(table: &[u8], s: Shape, link_index: &[u32], network: &mut [u32])
    requires { Checked table.now s × LinkIndex link_index.now table.now s × (length network.old ≡ network_words) }
    ensures { TableNetwork table.now s network.new }
{
    let mut near_index = [0u32; INDEX];
    enter_near_bridges(table, s, &mut near_index);
    list_neighbours(table, s, link_index, &near_index, network);
    write_bridges(table, s, &mut network[MARKS..]);
    network[BRIDGES] = s.bridges as u32;
}
