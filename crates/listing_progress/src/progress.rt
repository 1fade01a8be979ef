// A listing given part by part (01, "Listing program"): begun with the verdict on the table, then one part after the other until none is
// left. The parts given are together the listing of the table (`listing-given`).
ghost use Rattle.std.specs.Prelude.{◌≡◌, ◌+◌, ◌≤◌, ◌<◌, length};
ghost use Rattle.network.specs.Layout.{network_words};
ghost use Rattle.trees.specs.Store.{line_words};
ghost use Rattle.listing_lines.specs.Listing.{listing};
ghost use Rattle.listing_progress.specs.Remaining.{AllZero, remaining, one_more, NextOf, Underway, GoesOn};

use key_index::chain::INDEX;
use links::counts::counts;
use listing_lines::refusal::write_refused;
use listing_parts::part::{part_count, write_part};
use network::make::make_network;
use rule::answer::Counts;
use rule::refusal::Refusal;
use table::shape::Shape;
use verdict::examine::examine;

// How far a listing is given: the verdict on its table, the table's counts where it was accepted, and how many parts were given.
#[derive(Clone, Copy)]
pub struct Progress {
    pub examined: Result<Shape, Refusal>,
    pub counts: Counts,
    pub given: usize,
}

// A part given: how many bytes it has, and how far the listing is given after it.
#[derive(Clone, Copy)]
pub struct Part {
    pub written: usize,
    pub after: Progress,
}

// One part more was given.
fn part_given(progress: Progress, written: usize) -> Part
    requires { progress.given < 1090 }
    ensures { result ≡ one_more progress written }
{
    Part {
        written,
        after: Progress {
            given: progress.given + 1,
            ..progress
        },
    }
}

// Begins the listing of a table: nothing of it is given yet. The lent list is the network of its plan then, where it is accepted; the
// store of trees is empty.
pub fn begin_listing(table: &[u8], network: &mut [u32], store: &[u32]) -> Progress
    requires { (length network.old ≡ network_words) × (line_words ≤ length store.now) × AllZero store.now }
    ensures result_value { remaining table.now result ≡ listing table.now }
    ensures underway { Underway table.now result network.new store.now }
{
    let mut link_index = [0u32; INDEX];
    let examined = examine(table, &mut link_index);
    match examined {
        Ok(s) => {
            make_network(table, s, &link_index, network);
            Progress {
                examined: examined,
                counts: counts(table, s, &link_index),
                given: 0,
            }
        }
        Err(_) => Progress {
            examined: examined,
            counts: Counts {
                bridges: 0,
                half_links: 0,
                usable_links: 0,
                vids: 0,
                members: 0,
            },
            given: 0,
        },
    }
}

// Gives the next part, where one is left: writes it to the front of the lent bytes. Trees are kept, so that each is made once for all parts.
pub fn next_part(
    table: &[u8],
    network: &[u32],
    progress: Progress,
    path_ids: &mut [u64],
    store: &mut [u32],
    words: &mut [u32],
    out: &mut [u8],
) -> Option<Part>
    requires underway { Underway table.now progress network.now store.old }
    requires in_bounds { (4096 ≤ length path_ids.old) × (14931 ≤ length words.old) × (258804 ≤ length out.old) }
    ensures next_of { NextOf table.now progress out.new result }
    ensures goes_on { GoesOn table.now progress network.now store.new result }
{
    let given = progress.given;
    match progress.examined {
        Ok(s) => {
            if part_count(s) <= given {
                return None;
            }
            let written = write_part(
                table,
                s,
                progress.counts,
                network,
                given,
                path_ids,
                store,
                words,
                out,
            );
            Some(part_given(progress, written))
        }
        Err(refusal) => {
            if 1 <= given {
                return None;
            }
            let written = write_refused(refusal.number, refusal.word, out, 0);
            Some(part_given(progress, written))
        }
    }
}
