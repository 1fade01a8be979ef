// The hops of a network (01, "Links"): for each bridge the bridges joined to it, with the cost and the near port of each hop's link.
ghost use Rattle.std.specs.Prelude.{◌≡◌, ◌+◌, ◌≤◌, ◌<◌, min, length};
ghost use Rattle.rule.specs.Words.{words_of};
ghost use Rattle.table.specs.Positions.{plan_at};
ghost use Rattle.table.specs.Numbered.{half_link_number};
ghost use Rattle.verdict.specs.Examination.{Checked, LinkIndex};
ghost use Rattle.network.specs.Layout.{marks_at};
ghost use Rattle.network.specs.Neighbours.{HopsOf, HopsListed, Kept};
ghost use Rattle.network.specs.Rows.{NearIndex, Visited, Cleared, Offered, Gathering, HaveHops, HopsWritten};

use crate::parts::{COSTS, NEIGHBOURS, PORTS, STARTS};
use key_index::chain::{last_place, place_before};
use links::hop::{NO_HOP, cost_of_hop, hop_of, port_of_hop};
use rule::kinds::MOST_BRIDGES;
use table::records::half_link;
use table::shape::Shape;

// Offers the hop by the half-link `i` to the row of its near bridge, and lists its far bridge where that had no hop, the first `at` hops being
// listed; gives how many are listed then.
fn offer_half_link(
    table: &[u8],
    s: Shape,
    link_index: &[u32],
    i: usize,
    row: &mut [u64],
    at: usize,
    network: &mut [u32],
) -> usize
    requires { Checked table.now s × LinkIndex link_index.now table.now s × (i < s.half_links) × (length row.old ≡ 64) × (at < 512) × (marks_at ≤ length network.old) }
    ensures { Offered (plan_at (words_of table.now) s).half_links (half_link_number (words_of table.now) s i) row.old row.new network.old network.new at result }
{
    let hop = hop_of(table, s, link_index, i);
    if NO_HOP <= hop {
        return at;
    }
    let far = half_link(table, s, i).far;
    let known = row[far as usize];
    row[far as usize] = known.min(hop);
    if known < NO_HOP {
        return at;
    }
    network[NEIGHBOURS + at] = far;
    at + 1
}

// Gathers the lowest hops of the bridge `u` in a row that has none, and lists the bridges that they lead to, the first `from` hops being listed;
// gives how many are listed then.
fn gather_hops(
    table: &[u8],
    s: Shape,
    link_index: &[u32],
    near_index: &[u32],
    u: usize,
    from: usize,
    row: &mut [u64],
    network: &mut [u32],
) -> usize
    requires { Checked table.now s × LinkIndex link_index.now table.now s × NearIndex near_index.now table.now s × (u < s.bridges) × Visited table.now s u s.half_links from × Cleared row.old × (marks_at ≤ length network.old) }
    ensures { Gathering table.now s u from network.old row.new network.new 0 result }
{
    let mut at = from;
    let mut place = last_place(near_index, s.half_links, u as u32);
    while 0 < place {
        at = offer_half_link(table, s, link_index, place as usize - 1, row, at, network);
        place = place_before(near_index, s.half_links, place);
    }
    at
}

// Writes the cost and the near port of each hop from the place `from` to the place before `to`, as the row has them.
fn write_hops(row: &[u64], from: usize, to: usize, network: &mut [u32])
    requires { (from ≤ to) × (to ≤ 512) × (marks_at ≤ length network.old) × HaveHops row.now network.old from to }
    ensures { HopsWritten row.now network.old network.new from to }
{
    for k in from..to {
        let hop = row[network[NEIGHBOURS + k] as usize];
        network[COSTS + k] = cost_of_hop(hop);
        network[PORTS + k] = port_of_hop(hop);
    }
}

// Lists the hops of the bridge `u`, the first `from` hops being listed, and gives how many are listed then.
fn list_hops(
    table: &[u8],
    s: Shape,
    link_index: &[u32],
    near_index: &[u32],
    u: usize,
    from: usize,
    network: &mut [u32],
) -> usize
    requires { Checked table.now s × LinkIndex link_index.now table.now s × NearIndex near_index.now table.now s × (u < s.bridges) × Visited table.now s u s.half_links from × (marks_at ≤ length network.old) }
    ensures { HopsOf (plan_at (words_of table.now) s) u network.new from result × Visited table.now s (u + 1) s.half_links result × Kept network.old network.new from }
{
    let mut row = [NO_HOP; MOST_BRIDGES];
    let to = gather_hops(table, s, link_index, near_index, u, from, &mut row, network);
    write_hops(&row, from, to, network);
    to
}

// Lists the hops of all bridges, those of each from its first hop to the first of the next.
pub fn list_neighbours(
    table: &[u8],
    s: Shape,
    link_index: &[u32],
    near_index: &[u32],
    network: &mut [u32],
)
    requires { Checked table.now s × LinkIndex link_index.now table.now s × NearIndex near_index.now table.now s × (marks_at ≤ length network.old) }
    ensures { HopsListed (plan_at (words_of table.now) s) s.bridges 512 network.new × (length network.new ≡ length network.old) }
{
    network[STARTS] = 0;
    let mut at = 0;
    for u in 0..s.bridges {
        at = list_hops(table, s, link_index, near_index, u, at, network);
        network[STARTS + (u + 1)] = at as u32;
    }
}
