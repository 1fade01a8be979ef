// Load, a change of metric, and a withdrawal (02, A7). The running table stays in the bytes that the caller lends, and the watched tree in
// three lent lists; its numbers are a struct by value.
ghost use Rattle.std.specs.Prelude.{◌≡◌, ◌≤◌};
ghost use Rattle.edits.specs.Running.{kept_with, watching, kept_in, NumbersAndLists, WholeState, load_outcome, change_outcome, metric_change, withdrawal, running_values};
ghost use Rattle.running.specs.Permission.{FrontOf};

use crate::permission::{permit, room_of};
use editing::replace::{withdraw_words, write_metric};
use edits::change::{HalfLinkName, Running, RunningAnswer};
use numbers::metric::Metric;
use rule::answer::TreeAnswer;
use spb::tree_lists::tree;

// The bytes of a half-link's three words.
const HALF_LINK: usize = 12;

// How many of the lent bytes are the running table: its length, or all where there are fewer.
fn table_length(running: Running, bytes: usize) -> usize
    ensures { (result ≤ bytes) × FrontOf result running.length bytes }
{
    bytes.min(running.length as usize)
}

// The numbers of a state, with the tree of its table in the three lists.
fn keep(
    table: &[u8],
    bridge: u32,
    vid: u32,
    changes: u32,
    costs: &mut [u32],
    hops: &mut [u32],
    lasts: &mut [u32],
) -> RunningAnswer
    ensures { ◌≡◌ {A = NumbersAndLists} (running_values result, costs.new, hops.new, lasts.new) (kept_in costs.old hops.old lasts.old (kept_with (watching table.now bridge vid changes))) }
{
    let given = tree(table, vid, bridge, costs, hops, lasts);
    match given {
        TreeAnswer::Given { bridges: _ } => RunningAnswer::Kept(Running {
            length: table.len() as u32,
            bridge,
            vid,
            changes,
        }),
        TreeAnswer::Refused { number, kind, word } => RunningAnswer::Refused { number, kind, word },
    }
}

// Load (table, bridge, VID). The running table is the one lent, in the bytes where it is.
pub fn load(
    table: &[u8],
    bridge: u32,
    vid: u32,
    costs: &mut [u32],
    hops: &mut [u32],
    lasts: &mut [u32],
) -> RunningAnswer
    ensures { ◌≡◌ {A = NumbersAndLists} (running_values result, costs.new, hops.new, lasts.new) (load_outcome table.now bridge vid costs.old hops.old lasts.old) }
{
    keep(table, bridge, vid, 0, costs, hops, lasts)
}

// Change of metric (near bridge, port, metric).
pub fn change_metric(
    running: Running,
    name: HalfLinkName,
    metric: u32,
    table: &mut [u8],
    costs: &mut [u32],
    hops: &mut [u32],
    lasts: &mut [u32],
) -> RunningAnswer
    ensures { ◌≡◌ {A = WholeState} (running_values result, table.new, costs.new, hops.new, lasts.new) (change_outcome running (metric_change name metric) table.old costs.old hops.old lasts.old) }
{
    let length = table_length(running, table.len());
    let room = room_of(costs.len(), hops.len(), lasts.len());
    let fits = Metric(metric).is_in_range();
    let permitted = permit(&table[..length], running, name, fits, room);
    match permitted {
        Ok(k) => {
            write_metric(&mut table[..length], k, metric);
            keep(
                &table[..length],
                running.bridge,
                running.vid,
                running.changes + 1,
                costs,
                hops,
                lasts,
            )
        }
        Err(refusal) => RunningAnswer::from(refusal),
    }
}

// Withdrawal (near bridge, port).
pub fn withdraw(
    running: Running,
    name: HalfLinkName,
    table: &mut [u8],
    costs: &mut [u32],
    hops: &mut [u32],
    lasts: &mut [u32],
) -> RunningAnswer
    ensures { ◌≡◌ {A = WholeState} (running_values result, table.new, costs.new, hops.new, lasts.new) (change_outcome running (withdrawal name) table.old costs.old hops.old lasts.old) }
{
    let length = table_length(running, table.len());
    let room = room_of(costs.len(), hops.len(), lasts.len());
    let permitted = permit(&table[..length], running, name, true, room);
    match permitted {
        Ok(k) => {
            withdraw_words(&mut table[..length], k);
            keep(
                &table[..length - HALF_LINK],
                running.bridge,
                running.vid,
                running.changes + 1,
                costs,
                hops,
                lasts,
            )
        }
        Err(refusal) => RunningAnswer::from(refusal),
    }
}
