// Bridges and members that repeat an earlier one (01, "Refusals in checking order", 8), and VIDs that have a record (7). Of VIDs a table
// has few, and they are searched one after the other. Bridges and members are in indexes: where no earlier record has a record's key
// it repeats none. A key has 32 bits, less than an address, or a bridge with I-SID and VID, has; so where one has the key the records
// are compared one after the other.
ghost use Rattle.std.specs.Prelude.{◌≡◌, ◌+◌, ◌*◌, ◌%◌, ◌≤◌, ◌<◌, length};
ghost use Rattle.lists.specs.Lists.{any_passes};
ghost use Rattle.rule.specs.Words.{words_of};
ghost use Rattle.rule.specs.Records.{bridge_of, vid_of, member_of};
ghost use Rattle.rule.specs.Plan.{has_vid};
ghost use Rattle.rule.specs.Check.{repeats_bridge, repeats_member};
ghost use Rattle.readers.specs.Readers.{bridge_values, member_values};
ghost use Rattle.table.specs.Positions.{records_at};
ghost use Rattle.earlier.specs.Keys.{BridgeIndexes, MemberIndex};

use key_index::chain::last_place;
use readers::bridge::{Bridge, bridge_at};
use readers::member::{Member, member_at};
use readers::vid::vid_at;

// Whether two bridges have one address, or one SPsourceID.
fn repeats_bridge(b: Bridge, earlier: Bridge) -> bool
    ensures { result ≡ repeats_bridge (bridge_values b) (bridge_values earlier) }
{
    if earlier.identifier % 281474976710656 == b.identifier % 281474976710656 {
        return true;
    }
    earlier.sp_source_id == b.sp_source_id
}

// Whether one of the first `bridges` bridges is repeated: all are compared.
fn repeats_any_bridge(table: &[u8], bridges: usize, b: Bridge) -> bool
    requires { 12 * bridges ≤ length table.now }
    ensures { result ≡ any_passes (repeats_bridge (bridge_values b)) (records_at bridge_of 3 0 (words_of table.now) bridges) }
{
    for i in 0..bridges {
        if repeats_bridge(b, bridge_at(table, 3 * i)) {
            return true;
        }
    }
    false
}

// The key of an address: its lower 32 bits.
pub fn address_key(identifier: u64) -> u32
    ensures { result ≡ identifier % 4294967296 }
{
    (identifier % 4294967296) as u32
}

// Whether one of the first `bridges` bridges, which are in the two indexes, is repeated.
pub fn is_bridge_repeated(
    table: &[u8],
    source_index: &[u32],
    address_index: &[u32],
    bridges: usize,
    b: Bridge,
) -> bool
    requires { (12 * bridges ≤ length table.now) × BridgeIndexes source_index.now address_index.now (words_of table.now) bridges }
    ensures { result ≡ any_passes (repeats_bridge (bridge_values b)) (records_at bridge_of 3 0 (words_of table.now) bridges) }
{
    if last_place(source_index, bridges, b.sp_source_id) != 0 {
        return true;
    }
    if last_place(address_index, bridges, address_key(b.identifier)) == 0 {
        return false;
    }
    repeats_any_bridge(table, bridges, b)
}

// Whether one of the `vids` VID records from the word `from` on has the VID.
pub fn is_vid_known(table: &[u8], from: usize, vids: usize, vid: u32) -> bool
    requires { 4 * (from + vids) ≤ length table.now }
    ensures { result ≡ any_passes (has_vid vid) (records_at vid_of 1 from (words_of table.now) vids) }
{
    for i in 0..vids {
        if vid_at(table, from + i).vid == vid {
            return true;
        }
    }
    false
}

// Whether two members have one bridge, one I-SID and one VID.
fn repeats_member(m: Member, earlier: Member) -> bool
    ensures { result ≡ repeats_member (member_values m) (member_values earlier) }
{
    if earlier.bridge != m.bridge {
        return false;
    }
    if earlier.isid != m.isid {
        return false;
    }
    earlier.vid == m.vid
}

// Whether one of the `members` members from the word `from` on is repeated: all are compared.
fn repeats_any_member(table: &[u8], from: usize, members: usize, m: Member) -> bool
    requires { 4 * (from + 2 * members) ≤ length table.now }
    ensures { result ≡ any_passes (repeats_member (member_values m)) (records_at member_of 2 from (words_of table.now) members) }
{
    for i in 0..members {
        if repeats_member(m, member_at(table, from + 2 * i)) {
            return true;
        }
    }
    false
}

// The key of a member: its I-SID and its bridge.
pub fn member_key(isid: u32, bridge: u32) -> u32
    requires { (isid < 16777216) × (bridge < 65536) }
    ensures { result ≡ isid * 64 + bridge }
{
    isid * 64 + bridge
}

// Whether one of the `members` members from the word `from` on, which are in the index, is repeated.
pub fn is_member_repeated(
    table: &[u8],
    from: usize,
    member_index: &[u32],
    members: usize,
    m: Member,
) -> bool
    requires { (4 * (from + 2 * members) ≤ length table.now) × (m.isid < 16777216) × (m.bridge < 65536) × MemberIndex member_index.now (words_of table.now) from members }
    ensures { result ≡ any_passes (repeats_member (member_values m)) (records_at member_of 2 from (words_of table.now) members) }
{
    if last_place(member_index, members, member_key(m.isid, m.bridge)) == 0 {
        return false;
    }
    repeats_any_member(table, from, members, m)
}
