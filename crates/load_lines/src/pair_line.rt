// The load lines of the pairs with one lower bridge, and the lines of total and lost (02, A5).
ghost use Rattle.std.specs.Prelude.{◌∷◌, [], ◌+◌, ◌*◌, ◌≤◌, ◌<◌, length};
ghost use Rattle.lists.specs.Appending.{each_of};
ghost use Rattle.text.specs.Text.{line, WrittenAt};
ghost use Rattle.listing_lines.specs.Listing.{load_word, sum_lines};
ghost use Rattle.load_lines.specs.PairTexts.{pair_text};

use loads::pair::pair_place;
use text::fields::write_line;

// "`load`, lower bridge, higher bridge and the sum".
fn write_load(lower: u32, higher: u32, load: u32, out: &mut [u8], at: usize) -> usize
    requires { at + 38 ≤ length out.old }
    ensures { WrittenAt at out.old out.new (line load_word (lower ∷ higher ∷ load ∷ [])) result × (result ≤ at + 38) }
{
    let numbers = [lower, higher, load];
    write_line(b"load", &numbers, out, at)
}

// The line of the bridges `u` and `v`, where `u` is the lower and has a hop to `v`: a port that is not 0.
fn write_pair_line(
    hops: &[u16],
    loads: &[u32],
    u: usize,
    v: usize,
    out: &mut [u8],
    at: usize,
) -> usize
    requires { (64 ≤ length hops.now) × (4096 ≤ length loads.now) × (u < 64) × (v < 64) × (at + 38 ≤ length out.old) }
    ensures { WrittenAt at out.old out.new (pair_text hops.now loads.now u v) result × (result ≤ at + 38) }
{
    if v <= u {
        return at;
    }
    if hops[v] == 0 {
        return at;
    }
    write_load(u as u32, v as u32, loads[pair_place(u, v)], out, at)
}

// The lines of the bridge `u` and the first `n` bridges, by the higher.
pub fn write_lines_of(
    hops: &[u16],
    loads: &[u32],
    u: usize,
    n: usize,
    out: &mut [u8],
    at: usize,
) -> usize
    requires { (64 ≤ length hops.now) × (4096 ≤ length loads.now) × (u < 64) × (n ≤ 64) × (at + 38 * n ≤ length out.old) }
    ensures { WrittenAt at out.old out.new (each_of (pair_text hops.now loads.now u) n) result × (result ≤ at + 38 * n) }
{
    let mut next = at;
    for v in 0..n {
        next = write_pair_line(hops, loads, u, v, out, next);
    }
    next
}

// "then `total` and `lost`".
pub fn write_sums(total: u32, lost: u32, out: &mut [u8], at: usize) -> usize
    requires { at + 34 ≤ length out.old }
    ensures { WrittenAt at out.old out.new (sum_lines total lost) result × (result ≤ at + 34) }
{
    let total_field = [total];
    let lost_field = [lost];
    let after_total = write_line(b"total", &total_field, out, at);
    write_line(b"lost", &lost_field, out, after_total)
}
