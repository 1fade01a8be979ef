// What the link of a half-link costs, and how many links are usable (01, "Links"; 02, A3).
ghost use Rattle.std.specs.Prelude.{◌≡◌, false, ◌<◌};
ghost use Rattle.rule.specs.Words.{words_of};
ghost use Rattle.rule.specs.Links.{count_usable};
ghost use Rattle.table.specs.Positions.{plan_at};
ghost use Rattle.table.specs.Numbered.{half_link_number};
ghost use Rattle.verdict.specs.Examination.{Checked, LinkIndex};
ghost use Rattle.links.specs.Mates.{link_metric, counted};

use key_index::chain::other_place;
use numbers::metric::Metric;
use table::records::half_link;
use table::shape::Shape;

// What the link of the half-link `i`, which is not down, costs. "A half-link alone isn't used."
fn metric_with_mate(table: &[u8], s: Shape, link_index: &[u32], i: usize) -> Metric
    requires { Checked table.now s × (i < s.half_links) × LinkIndex link_index.now table.now s × ((half_link_number (words_of table.now) s i).down ≡ false) }
    ensures { result.0 ≡ link_metric (plan_at (words_of table.now) s).half_links (half_link_number (words_of table.now) s i) }
{
    let place = other_place(link_index, s.half_links, i as u32 + 1);
    if place == 0 {
        return Metric::UNUSABLE;
    }
    let mate = half_link(table, s, place as usize - 1);
    let h = half_link(table, s, i);
    if mate.down {
        Metric::UNUSABLE
    } else {
        h.metric.combined(mate.metric)
    }
}

// What the link of the half-link `i` costs. Where a half of it is down, the unusable metric stands for it.
pub fn link_metric(table: &[u8], s: Shape, link_index: &[u32], i: usize) -> Metric
    requires { Checked table.now s × (i < s.half_links) × LinkIndex link_index.now table.now s }
    ensures { result.0 ≡ link_metric (plan_at (words_of table.now) s).half_links (half_link_number (words_of table.now) s i) }
{
    if half_link(table, s, i).down {
        Metric::UNUSABLE
    } else {
        metric_with_mate(table, s, link_index, i)
    }
}

// 1 where the half-link `i` is of a usable link and is seen from its lower bridge.
fn count_one(table: &[u8], s: Shape, link_index: &[u32], i: usize) -> u32
    requires { Checked table.now s × (i < s.half_links) × LinkIndex link_index.now table.now s }
    ensures { result ≡ counted (plan_at (words_of table.now) s).half_links (half_link_number (words_of table.now) s i) }
{
    let h = half_link(table, s, i);
    if h.far <= h.near {
        return 0;
    }
    if link_metric(table, s, link_index, i).is_usable() {
        return 1;
    }
    0
}

// How many links are usable: each is counted where it is seen from its lower bridge.
pub fn count_usable(table: &[u8], s: Shape, link_index: &[u32]) -> u32
    requires { Checked table.now s × LinkIndex link_index.now table.now s }
    ensures { result ≡ count_usable (plan_at (words_of table.now) s).half_links }
{
    let mut count = 0;
    for i in 0..s.half_links {
        count += count_one(table, s, link_index, i);
    }
    count
}
