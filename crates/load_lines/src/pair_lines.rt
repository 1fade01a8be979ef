// The load lines of all joined pairs of a network, in rising order (02, A5).
ghost use Rattle.std.specs.Prelude.{◌+◌, ◌≤◌, ◌<◌, length};
ghost use Rattle.network.specs.Layout.{bridges_in};
ghost use Rattle.network.specs.Networks.{IsNetwork};
ghost use Rattle.load_lines.specs.PairTexts.{LinesFrom, PairLinesIn};

use crate::pair_line::write_lines_of;
use egress::hops::hop_ports;
use network::parts::bridges;
use rule::kinds::MOST_BRIDGES;

// The lines of the pairs whose lower bridge is `u`.
fn write_lines_from(network: &[u32], loads: &[u32], u: usize, out: &mut [u8], at: usize) -> usize
    requires { IsNetwork network.now × (4096 ≤ length loads.now) × (u < bridges_in network.now) × (at + 2432 ≤ length out.old) }
    ensures { LinesFrom network.now loads.now u at out.old out.new result }
{
    let mut hops = [0u16; MOST_BRIDGES];
    hop_ports(network, u, &mut hops);
    write_lines_of(&hops, loads, u, bridges(network), out, at)
}

// The lines of all pairs, to the front of the lent bytes: at most 64 for each of 64 bridges, 38 bytes each.
pub fn write_pair_lines(network: &[u32], loads: &[u32], out: &mut [u8]) -> usize
    requires { IsNetwork network.now × (4096 ≤ length loads.now) × (155648 ≤ length out.old) }
    ensures { PairLinesIn network.now loads.now out.old out.new result }
{
    let n = bridges(network);
    let mut next = 0;
    for u in 0..n {
        next = write_lines_from(network, loads, u, out, next);
    }
    next
}
