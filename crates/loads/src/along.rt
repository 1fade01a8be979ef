// An amount added to every pair whose hop a path takes, by the labels of the tree that is rooted at the path's end.
ghost use Rattle.std.specs.Prelude.{◌+◌, ◌≤◌, ◌<◌, length};
ghost use Rattle.path.specs.Followed.{followed};
ghost use Rattle.loads.specs.Places.{Room, PathAdded};
ghost use Rattle.loads.specs.Sums.{PassesOnce, Passable, labelled_option, RecordAdded};

use crate::pair::add_hop;
use labels::label::{cost_at, hops_at, next_at};

// What one record of traffic, or all of them, add to total and to lost.
#[derive(Clone, Copy)]
pub struct Sums {
    pub total: u32,
    pub lost: u32,
}

// Adds the amount for each of the `hops` hops that next hops lead along from the bridge `from`.
fn add_along(labels: &[u32], from: usize, hops: usize, amount: u32, loads: &mut [u32])
    requires in_bounds { (320 ≤ length labels.now) × PassesOnce labels.now from (hops + 1) }
    requires in_bounds_2 { (4096 ≤ length loads.old) × Room loads.old amount }
    ensures { PathAdded loads.old (followed labels.now from (hops + 1)) amount loads.new }
{
    let mut u = from;
    for _passed in 0..hops {
        let v = next_at(labels, u);
        add_hop(loads, u, v, amount);
        u = v;
    }
}

// Adds the amount along the path that the labels have for the bridge `from`; where they have none it is lost.
pub fn add_labelled(labels: &[u32], from: usize, amount: u32, loads: &mut [u32]) -> Sums
    requires in_bounds { (320 ≤ length labels.now) × Passable labels.now from × (amount ≤ 65535) }
    requires in_bounds_2 { (4096 ≤ length loads.old) × Room loads.old amount }
    ensures { RecordAdded (labelled_option labels.now from) amount loads.old loads.new result }
{
    let cost = cost_at(labels, from);
    if cost.is_no_path() {
        return Sums {
            total: 0,
            lost: amount,
        };
    }
    let hops = hops_at(labels, from).count();
    add_along(labels, from, hops, amount, loads);
    Sums {
        total: hops as u32 * amount,
        lost: 0,
    }
}
