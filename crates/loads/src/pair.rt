// The loads of all pairs of bridges in one lent list, a row for each bridge: that of a pair stands in the row of its lower bridge, at the
// place of its higher.
ghost use Rattle.std.specs.Prelude.{◌≡◌, ◌+◌, ◌≤◌, ◌<◌, length, get_or};
ghost use Rattle.loads.specs.Places.{hop_place, hop_added, NoLoads};

use rule::kinds::MOST_BRIDGES;

// The places of the list.
pub const LOADS: usize = MOST_BRIDGES * MOST_BRIDGES;

// The place of the pair that a hop belongs to, "either way".
pub fn pair_place(x: usize, y: usize) -> usize
    requires { (x < 64) × (y < 64) }
    ensures { (result ≡ hop_place x y) × (result < 4096) }
{
    if x < y {
        return MOST_BRIDGES * x + y;
    }
    MOST_BRIDGES * y + x
}

// No pair has a load.
pub fn clear_loads(loads: &mut [u32])
    requires { 4096 ≤ length loads.old }
    ensures { NoLoads loads.new 4096 }
{
    loads[..LOADS].fill(0);
}

// The pair of a hop gets an amount more.
pub fn add_hop(loads: &mut [u32], x: usize, y: usize, amount: u32)
    requires { (4096 ≤ length loads.old) × (x < 64) × (y < 64) × (get_or loads.old (hop_place x y) 0 + amount < 4294967296) }
    ensures { loads.new ≡ hop_added loads.old x y amount }
{
    let place = pair_place(x, y);
    loads[place] = loads[place] + amount;
}
