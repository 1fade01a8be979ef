// The label of a bridge, read from the labels of a search. They are one list of numbers, so a cost and a hop count get their types
// here, where they are read.
ghost use Rattle.std.specs.Prelude.{◌≡◌, ◌+◌, ◌<◌, length};
ghost use Rattle.labels.specs.Labels.{label_at};

use measures::measure::{Cost, Hops};
use rule::kinds::MOST_BRIDGES;

// Where the words of one sort begin: all bridges' words of a sort stand together, the costs at which they wait first.
pub const COSTS: usize = MOST_BRIDGES;

pub const HOPS: usize = 2 * MOST_BRIDGES;

pub const NEXT_HOPS: usize = 3 * MOST_BRIDGES;

pub const FIRST_HOPS: usize = 4 * MOST_BRIDGES;
// The words of the labels.
pub const LABELS: usize = 5 * MOST_BRIDGES;

// The cost at which the bridge `u` waits to be settled.
pub fn waits_at(labels: &[u32], u: usize) -> Cost
    requires { u < length labels.now }
    ensures { result.0 ≡ (label_at labels.now u).waits }
{
    Cost(labels[u])
}

// The cost of its path.
pub fn cost_at(labels: &[u32], u: usize) -> Cost
    requires { 64 + u < length labels.now }
    ensures { result.0 ≡ (label_at labels.now u).cost }
{
    Cost(labels[COSTS + u])
}

// The hops of its path.
pub fn hops_at(labels: &[u32], u: usize) -> Hops
    requires { 128 + u < length labels.now }
    ensures { result.0 ≡ (label_at labels.now u).hops }
{
    Hops(labels[HOPS + u])
}

// The next hop of its path, towards the root.
pub fn next_number(labels: &[u32], u: usize) -> u32
    requires { 192 + u < length labels.now }
    ensures { result ≡ (label_at labels.now u).next }
{
    labels[NEXT_HOPS + u]
}

// The same as a place of a list.
pub fn next_at(labels: &[u32], u: usize) -> usize
    requires { 192 + u < length labels.now }
    ensures { result ≡ (label_at labels.now u).next }
{
    next_number(labels, u) as usize
}
