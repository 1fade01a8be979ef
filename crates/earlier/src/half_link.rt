// The faults of a half-link among the half-links before it (01, "Refusals in checking order", 7 to 9). The half-links before it are
// in two indexes, by near bridge with port and by link number.
ghost use Rattle.std.specs.Prelude.{◌≡◌, not, ◌||◌, ◌+◌, ◌*◌, ◌≤◌, ◌<◌, eqb, ltb, length};
ghost use Rattle.lists.specs.Lists.{selected};
ghost use Rattle.rule.specs.Words.{words_of};
ghost use Rattle.rule.specs.Records.{half_link_of};
ghost use Rattle.rule.specs.Check.{mirrors, has_link, wrong_half};
ghost use Rattle.readers.specs.Readers.{half_link_values};
ghost use Rattle.table.specs.Positions.{records_at};
ghost use Rattle.key_index.specs.Places.{last_place};
ghost use Rattle.key_index.specs.Index.{Indexed, holds};
ghost use Rattle.earlier.specs.HalfLinks.{number_key, Keyed};

use key_index::chain::{last_place, place_before};
use readers::half_link::{HalfLink, half_link_at};

// "A bridge .. that a half-link .. names has no record, or near and far bridge are equal."
pub fn names_unknown(bridges: usize, near: u32, far: u32) -> bool
    ensures { result ≡ (not (ltb near bridges) || not (ltb far bridges) || eqb near far) }
{
    if bridges <= near as usize {
        return true;
    }
    if bridges <= far as usize {
        return true;
    }
    near == far
}

// The key of a near bridge with port.
pub fn port_key(near: u32, port: u32) -> u32
    requires { (near < 65536) × (port < 65536) }
    ensures { result ≡ near * 65536 + port }
{
    near * 65536 + port
}

// "near and far bridge exchanged".
fn is_mirror(h: HalfLink, earlier: HalfLink) -> bool
    ensures { result ≡ mirrors (half_link_values h) (half_link_values earlier) }
{
    if h.near != earlier.far {
        return false;
    }
    h.far == earlier.near
}

// Whether one of the first `count` half-links has the near bridge with port.
pub fn is_port_repeated(port_index: &[u32], count: usize, near: u32, port: u32) -> bool
    requires { Indexed port_index.now count × (near < 65536) × (port < 65536) }
    ensures { result ≡ not (eqb (last_place (holds port_index.now (near * 65536 + port)) count) 0) }
{
    last_place(port_index, count, port_key(near, port)) != 0
}

// Whether the half-link is "a third half-link of a link number, or the second and no mirror of the first".
pub fn is_wrong_link(
    table: &[u8],
    from: usize,
    count: usize,
    link_index: &[u32],
    h: HalfLink,
) -> bool
    requires { (4 * (from + 3 * count) ≤ length table.now) × Keyed number_key link_index.now (words_of table.now) from count }
    ensures { result ≡ wrong_half (half_link_values h) (selected (has_link h.link) (records_at half_link_of 3 from (words_of table.now) count)) }
{
    let place = last_place(link_index, count, h.link);
    if place == 0 {
        return false;
    }
    if place_before(link_index, count, place) != 0 {
        return true;
    }
    let at = from + 3 * (place as usize - 1);
    !is_mirror(h, half_link_at(table, at))
}
