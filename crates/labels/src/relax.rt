// Relaxing: each neighbour of a settled bridge is offered the way through it, and takes it where it ranks below its label
// (01, "The chosen path": "the least cost, then the fewest hops, then the lowest masked PATHID").
ghost use Rattle.std.specs.Prelude.{◌≡◌};
ghost use Rattle.graph.specs.Order.{is_lower};
ghost use Rattle.labels.specs.Labels.{label_at, label_rank, offer_rank, relaxed};
ghost use Rattle.labels.specs.Nearest.{BoundsOf};
ghost use Rattle.labels.specs.Relaxing.{Comparable, Relaxable, Relaxed};

use crate::label::{COSTS, HOPS, NEXT_HOPS, cost_at, hops_at, next_at};
use crate::nearest::lower_bound;
use ect::row::is_lower_row;
use measures::measure::{Cost, Hops};

// Whether the way through the bridge `via` ranks below the label of the bridge `v`. The key of `v` itself is left out of both
// PATHIDs: inserting it keeps their order.
fn is_lower_offer(
    labels: &[u32],
    path_ids: &[u64],
    via: usize,
    v: usize,
    cost: Cost,
    hops: Hops,
) -> bool
    requires { Comparable labels.now path_ids.now via v cost.0 hops.0 }
    ensures { result ≡ is_lower (offer_rank path_ids.now via cost.0 hops.0) (label_rank path_ids.now (label_at labels.now v)) }
{
    let old_cost = cost_at(labels, v);
    if cost.differs(old_cost) {
        return cost.is_below(old_cost);
    }
    let old_hops = hops_at(labels, v);
    if hops.differs(old_hops) {
        return hops.is_below(old_hops);
    }
    is_lower_row(path_ids, via, next_at(labels, v), hops.count())
}

// Offers the bridge `v` the way through the bridge `via`. Where it takes it, the bound of its group is lowered.
fn relax(
    labels: &mut [u32],
    bounds: &mut [u32],
    path_ids: &[u64],
    via: usize,
    v: usize,
    cost: Cost,
    hops: Hops,
)
    requires { Comparable labels.old path_ids.now via v cost.0 hops.0 × BoundsOf labels.old bounds.old }
    ensures { (labels.new ≡ relaxed labels.old path_ids.now via v cost.0 hops.0) × BoundsOf labels.new bounds.new }
{
    if !is_lower_offer(&labels[..], path_ids, via, v, cost, hops) {
        return;
    }
    labels[v] = cost.0;
    labels[COSTS + v] = cost.0;
    labels[HOPS + v] = hops.0;
    labels[NEXT_HOPS + v] = via as u32;
    lower_bound(bounds, v, cost);
}

// Offers each neighbour of the settled bridge `via` the way through it.
pub fn relax_all(
    starts: &[u32],
    neighbours: &[u32],
    costs: &[u32],
    path_ids: &[u64],
    labels: &mut [u32],
    bounds: &mut [u32],
    via: usize,
)
    requires { Relaxable starts.now neighbours.now costs.now path_ids.now labels.old via × BoundsOf labels.old bounds.old }
    ensures { Relaxed starts.now neighbours.now costs.now path_ids.now via labels.old labels.new × BoundsOf labels.new bounds.new }
{
    let via_cost = cost_at(&labels[..], via);
    let hops = hops_at(&labels[..], via).plus(Hops(1));
    let end = starts[via + 1] as usize;
    for i in starts[via] as usize..end {
        let cost = via_cost.plus(Cost(costs[i]));
        relax(
            labels,
            bounds,
            path_ids,
            via,
            neighbours[i] as usize,
            cost,
            hops,
        );
    }
}
