// The hop by the link of a half-link (01, "Links"), as one number.
ghost use Rattle.std.specs.Prelude.{◌≡◌, ◌<◌};
ghost use Rattle.rule.specs.Words.{words_of};
ghost use Rattle.table.specs.Positions.{plan_at};
ghost use Rattle.table.specs.Numbered.{half_link_number};
ghost use Rattle.verdict.specs.Examination.{Checked, LinkIndex};
ghost use Rattle.links.specs.Hops.{hop_number, hop_of, cost_of_hop, port_of_hop};

use crate::usable::link_metric;
use numbers::metric::Metric;
use table::records::half_link;
use table::shape::Shape;

// Stands for no hop.
pub const NO_HOP: u64 = u64::MAX;
// How many port numbers there are: the near port is the lowest part of a hop's number.
const PORT_NUMBERS: u64 = 4096;
// How many link numbers there are: the link number is the next part.
const LINK_NUMBERS: u64 = 65536;
// The cost is the highest part.
const HOPS_OF_ONE_COST: u64 = LINK_NUMBERS * PORT_NUMBERS;

// The number of a hop: the lower of two is the cheaper, of equals that with the lower link number.
fn hop_number(metric: Metric, link: u32, port: u32) -> u64
    requires { (metric.0 < 16777216) × (link < 65536) × (port < 65536) }
    ensures { result ≡ hop_number metric.0 link port }
{
    (metric.0 as u64 * LINK_NUMBERS + link as u64) * PORT_NUMBERS + port as u64
}

// The number of the hop by the link of the half-link `i`. A link that is not usable gives no hop. The half-link is read once its link is
// known to be usable: what is read before would wait in memory while its mate is looked for.
pub fn hop_of(table: &[u8], s: Shape, link_index: &[u32], i: usize) -> u64
    requires { Checked table.now s × (i < s.half_links) × LinkIndex link_index.now table.now s }
    ensures { result ≡ hop_of (plan_at (words_of table.now) s).half_links (half_link_number (words_of table.now) s i) }
{
    let metric = link_metric(table, s, link_index, i);
    if !metric.is_usable() {
        return NO_HOP;
    }
    let h = half_link(table, s, i);
    hop_number(metric, h.link, h.port)
}

// The cost of the hop with the number `hop`.
pub fn cost_of_hop(hop: u64) -> u32
    requires { hop < 4503599627370496 }
    ensures { result ≡ cost_of_hop hop }
{
    (hop / HOPS_OF_ONE_COST) as u32
}

// Its near port.
pub fn port_of_hop(hop: u64) -> u32
    ensures { result ≡ port_of_hop hop }
{
    (hop % PORT_NUMBERS) as u32
}
