// The records of one kind that stand next, read until another kind comes or one is refused. What a record is compared with are the
// records of its own kind, so the indexes of a kind are needed no longer than its records are read; that of the link numbers is lent,
// because links are looked up in it later. Traffic names a VID, so the VIDs are entered into an index before it is read.
ghost use Rattle.std.specs.Prelude.{◌≡◌};
ghost use Rattle.rule.specs.Words.{words_of};
ghost use Rattle.table.specs.Positions.{words_read};
ghost use Rattle.table.specs.Whole.{Whole};
ghost use Rattle.key_index.specs.Index.{Indexed};
ghost use Rattle.runs.specs.Runs.{is_kind, Reached, Run, NumbersKept};

use earlier::traffic::index_vids;
use key_index::chain::INDEX;
use readers::words::word_at;
use rule::kinds::{BRIDGE, HALF_LINK, MEMBER, TRAFFIC, VID};
use rule::refusal::Refusal;
use steps::step::{after_bridge, after_half_link, after_member, after_traffic, after_vid};
use table::shape::Shape;

// Whether the record after those of `s` is of the kind.
pub fn is_next(table: &[u8], s: Shape, kind: u32) -> bool
    requires { Whole table.now s }
    ensures { result ≡ is_kind (words_of table.now) kind (words_read s) }
{
    let at = s.words_read();
    if table.len() / 4 <= at {
        return false;
    }
    word_at(table, at) / 268435456 == kind
}

// Reads the bridges; `s` has none yet.
pub fn read_bridges(table: &[u8], s: Shape) -> Result<Shape, Refusal>
    requires { Whole table.now s × Reached (words_of table.now) s × (s.bridges ≡ 0) }
    ensures { Run (words_of table.now) 1 s result }
{
    let mut source_index = [0u32; INDEX];
    let mut address_index = [0u32; INDEX];
    let mut t = s;
    while is_next(table, t, BRIDGE) {
        t = after_bridge(table, t, &mut source_index, &mut address_index)?;
    }
    Ok(t)
}

// Reads the half-links; `s` has none yet, and the lent list is an index of no key. It is the index of their link numbers afterwards.
pub fn read_half_links(table: &[u8], s: Shape, link_index: &mut [u32]) -> Result<Shape, Refusal>
    requires { Whole table.now s × Reached (words_of table.now) s × (s.half_links ≡ 0) × Indexed link_index.old 0 }
    ensures run { Run (words_of table.now) 2 s result }
    ensures numbers_kept { NumbersKept (words_of table.now) link_index.new result }
{
    let mut port_index = [0u32; INDEX];
    let mut t = s;
    while is_next(table, t, HALF_LINK) {
        t = after_half_link(table, t, &mut port_index, link_index)?;
    }
    Ok(t)
}

// Reads the VIDs.
pub fn read_vids(table: &[u8], s: Shape) -> Result<Shape, Refusal>
    requires { Whole table.now s × Reached (words_of table.now) s }
    ensures { Run (words_of table.now) 3 s result }
{
    let mut t = s;
    while is_next(table, t, VID) {
        t = after_vid(table, t)?;
    }
    Ok(t)
}

// Reads the members; `s` has none yet.
pub fn read_members(table: &[u8], s: Shape) -> Result<Shape, Refusal>
    requires { Whole table.now s × Reached (words_of table.now) s × (s.members ≡ 0) }
    ensures { Run (words_of table.now) 4 s result }
{
    let mut member_index = [0u32; INDEX];
    let mut t = s;
    while is_next(table, t, MEMBER) {
        t = after_member(table, t, &mut member_index)?;
    }
    Ok(t)
}

// Reads the traffic, of which one record stands next; `s` has none yet.
fn read_indexed_traffic(table: &[u8], s: Shape) -> Result<Shape, Refusal>
    requires { Whole table.now s × Reached (words_of table.now) s × (s.traffic ≡ 0) }
    ensures { Run (words_of table.now) 5 s result }
{
    let mut vid_index = [0u32; INDEX];
    let mut traffic_index = [0u32; INDEX];
    index_vids(table, s.vids_from(), s.vids, &mut vid_index);
    let mut t = s;
    while is_next(table, t, TRAFFIC) {
        t = after_traffic(table, t, &vid_index, &mut traffic_index)?;
    }
    Ok(t)
}

// Reads the traffic (02, A5); `s` has none yet. Where none stands next, no index is made.
pub fn read_traffic_records(table: &[u8], s: Shape) -> Result<Shape, Refusal>
    requires { Whole table.now s × Reached (words_of table.now) s × (s.traffic ≡ 0) }
    ensures { Run (words_of table.now) 5 s result }
{
    if !is_next(table, s, TRAFFIC) {
        return Ok(s);
    }
    read_indexed_traffic(table, s)
}
