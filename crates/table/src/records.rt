// Records of a table by their numbers within their kind, and the ECT index of a VID (01, "The table"; 02, A5).
ghost use Rattle.std.specs.Prelude.{◌≡◌, ◌<◌};
ghost use Rattle.rule.specs.Words.{words_of};
ghost use Rattle.rule.specs.Plan.{vid_record};
ghost use Rattle.table.specs.Positions.{plan_at};
ghost use Rattle.table.specs.Whole.{Whole};
ghost use Rattle.readers.specs.Readers.{bridge_values, half_link_values, vid_values, member_values, traffic_values};
ghost use Rattle.table.specs.Numbered.{bridge_number, half_link_number, vid_number, member_number, traffic_number, index_of};

use crate::shape::Shape;
use readers::bridge::{Bridge, bridge_at};
use readers::half_link::{HalfLink, half_link_at};
use readers::member::{Member, member_at};
use readers::traffic::{Traffic, traffic_at};
use readers::vid::{Vid, vid_at};

pub fn bridge(table: &[u8], s: Shape, d: usize) -> Bridge
    requires { Whole table.now s × (d < s.bridges) }
    ensures { bridge_values result ≡ bridge_number (words_of table.now) d }
{
    bridge_at(table, 3 * d)
}

pub fn half_link(table: &[u8], s: Shape, i: usize) -> HalfLink
    requires { Whole table.now s × (i < s.half_links) }
    ensures { half_link_values result ≡ half_link_number (words_of table.now) s i }
{
    half_link_at(table, s.half_links_from() + 3 * i)
}

pub fn vid(table: &[u8], s: Shape, k: usize) -> Vid
    requires { Whole table.now s × (k < s.vids) }
    ensures { vid_values result ≡ vid_number (words_of table.now) s k }
{
    vid_at(table, s.vids_from() + k)
}

pub fn member(table: &[u8], s: Shape, j: usize) -> Member
    requires { Whole table.now s × (j < s.members) }
    ensures { member_values result ≡ member_number (words_of table.now) s j }
{
    member_at(table, s.members_from() + 2 * j)
}

pub fn traffic(table: &[u8], s: Shape, i: usize) -> Traffic
    requires { Whole table.now s × (i < s.traffic) }
    ensures { traffic_values result ≡ traffic_number (words_of table.now) s i }
{
    traffic_at(table, s.traffic_from() + 2 * i)
}

// The ECT index of a VID, or 0 where it has no record.
pub fn index_of(table: &[u8], s: Shape, vid: u32) -> u32
    requires { Whole table.now s }
    ensures { result ≡ index_of (vid_record (plan_at (words_of table.now) s) vid) }
{
    let from = s.vids_from();
    for k in 0..s.vids {
        let v = vid_at(table, from + k);
        if v.vid == vid {
            return v.index;
        }
    }
    0
}
