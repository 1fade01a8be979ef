// The nearest bridge that waits. Bridges stand in groups by number, and each group has a bound, below which none of its bridges waits.
// So the next bridge is found without a pass over all bridges: in the group of the least bound, where the bound is reached.
ghost use Rattle.std.specs.Prelude.{◌≡◌, cond, ltb, ◌+◌, ◌≤◌, ◌<◌, min, length};
ghost use Rattle.labels.specs.Nearest.{LeastPlace, BoundsOf, lowered_bounds, Nearest};

use measures::measure::Cost;
use rule::kinds::MOST_BRIDGES;

// The bridges of a group. There are as many groups.
const GROUP: usize = 8;
// The words of the bounds.
pub const GROUPS: usize = MOST_BRIDGES / GROUP;

fn lesser(a: Cost, b: Cost) -> Cost
    ensures { result.0 ≡ min a.0 b.0 }
{
    if a.is_below(b) { a } else { b }
}

// Which of two places has the lesser cost: `place`, or `least_at`, where the least cost so far stands.
fn place_of_lesser(least: Cost, least_at: usize, cost: Cost, place: usize) -> usize
    ensures { result ≡ cond (ltb cost.0 least.0) place least_at }
{
    if cost.is_below(least) {
        place
    } else {
        least_at
    }
}

// The place of a least cost among those of a group, which begin at `from`: searched without a branch.
fn least_place(costs: &[u32], from: usize) -> usize
    requires { from + 8 ≤ length costs.now }
    ensures { LeastPlace costs.now from 8 result }
{
    let mut least = Cost(costs[from]);
    let mut least_at = from;
    for k in 1..GROUP {
        let place = from + k;
        let cost = Cost(costs[place]);
        least_at = place_of_lesser(least, least_at, cost, place);
        least = lesser(cost, least);
    }
    least_at
}

// The bridge `v` waits at this cost now: the bound of its group is lowered to it.
pub fn lower_bound(bounds: &mut [u32], v: usize, cost: Cost)
    requires { (v < 64) × (length bounds.old ≡ 8) }
    ensures { bounds.new ≡ lowered_bounds bounds.old v cost.0 }
{
    let group = v / GROUP;
    bounds[group] = lesser(Cost(bounds[group]), cost).0;
}

// A bridge that waits at the least cost. A bound that was too low is raised, and the search goes on.
pub fn next_waiting(labels: &[u32], bounds: &mut [u32]) -> usize
    requires { (64 ≤ length labels.now) × BoundsOf labels.now bounds.old }
    ensures { Nearest labels.now result × BoundsOf labels.now bounds.new }
{
    let mut group = least_place(&bounds[..], 0);
    let mut u = least_place(labels, group * GROUP);
    while bounds[group] < labels[u] {
        bounds[group] = labels[u];
        group = least_place(&bounds[..], 0);
        u = least_place(labels, group * GROUP);
    }
    u
}
