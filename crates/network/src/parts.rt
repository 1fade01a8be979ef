// The parts of a network, and what is read of them. No other crate knows where a part begins.
ghost use Rattle.std.specs.Prelude.{◌≡◌, ◌≤◌, ◌<◌, length, get_or};
ghost use Rattle.network.specs.Layout.{network_words, bridges_in, starts_in, neighbours_in, ports_in, identifier_in};

use numbers::number::two_words;
use rule::kinds::{MOST_BRIDGES, MOST_HALF_LINKS};
use tree::marks::MARKS_AFTER;

// How many bridges there are.
pub const BRIDGES: usize = 0;
// For each hop the bridge at its other end, its cost and its near port.
pub const NEIGHBOURS: usize = BRIDGES + 1;

pub const COSTS: usize = NEIGHBOURS + MOST_HALF_LINKS;

pub const PORTS: usize = COSTS + MOST_HALF_LINKS;
// For each bridge, and one more, the place of its first hop. The search reads the marks behind them.
pub const STARTS: usize = PORTS + MOST_HALF_LINKS;
// For each bridge its mark.
pub const MARKS: usize = STARTS + MARKS_AFTER;
// For each bridge its identifier without the extension, two words.
pub const IDENTIFIERS: usize = MARKS + MOST_BRIDGES;
// The words of a network.
pub const NETWORK: usize = IDENTIFIERS + 2 * MOST_BRIDGES;

pub fn bridges(network: &[u32]) -> usize
    requires { network_words ≤ length network.now }
    ensures { result ≡ bridges_in network.now }
{
    network[BRIDGES] as usize
}

// The place of the first hop of the bridge `u`, which is the place after the last hop of the bridge before it.
pub fn first_hop(network: &[u32], u: usize) -> usize
    requires { (network_words ≤ length network.now) × (u < 65) }
    ensures { result ≡ get_or (starts_in network.now) u 0 }
{
    network[STARTS + u] as usize
}

// The bridge at the other end of the hop at the place `i`.
pub fn neighbour(network: &[u32], i: usize) -> usize
    requires { (network_words ≤ length network.now) × (i < 512) }
    ensures { result ≡ get_or (neighbours_in network.now) i 0 }
{
    network[NEIGHBOURS + i] as usize
}

// Its near port.
pub fn port(network: &[u32], i: usize) -> u32
    requires { (network_words ≤ length network.now) × (i < 512) }
    ensures { result ≡ get_or (ports_in network.now) i 0 }
{
    network[PORTS + i]
}

// The identifier of the bridge `u`.
pub fn identifier(network: &[u32], u: usize) -> u64
    requires { (network_words ≤ length network.now) × (u < 64) }
    ensures { result ≡ identifier_in network.now u }
{
    two_words(
        network[IDENTIFIERS + 2 * u],
        network[IDENTIFIERS + 2 * u + 1],
    )
}
