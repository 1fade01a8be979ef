// Group entries (01, "Entries"): the ports behind which a transmitter's receivers are, and the words of an entry for each.
ghost use Rattle.std.specs.Prelude.{◌≡◌, ◌<◌, ◌≤◌, length};
ghost use Rattle.rule.specs.Words.{words_of};
ghost use Rattle.rule.specs.Entries.{receives};
ghost use Rattle.readers.specs.Readers.{member_values};
ghost use Rattle.lists.specs.Appending.{Appended, Room};
ghost use Rattle.verdict.specs.Examination.{Checked};
ghost use Rattle.entry_words.specs.Words.{behind_at, ports_behind, group_words};

use entry_codec::layout::GROUP;
use entry_codec::writer::write_entry;
use readers::member::Member;
use table::records::member;
use table::shape::Shape;

// "another bridge with R in the same I-SID and VID".
fn is_receiver(m: Member, r: Member) -> bool
    ensures { result ≡ receives (member_values m) (member_values r) }
{
    if !r.receives {
        return false;
    }
    if r.isid != m.isid {
        return false;
    }
    if r.vid != m.vid {
        return false;
    }
    r.bridge != m.bridge
}

// Notes the port behind which the member `j` is, where it receives from `m`.
fn note_receiver(
    table: &[u8],
    s: Shape,
    egress_row: &[u16],
    m: Member,
    j: usize,
    behind: &mut [u16],
    at: usize,
) -> usize
    requires checked { Checked table.now s × (j < s.members) × (s.bridges ≤ length egress_row.now) }
    requires room { Room behind.old at (behind_at (words_of table.now) s egress_row.now (member_values m) j) }
    ensures { Appended behind.old at (behind_at (words_of table.now) s egress_row.now (member_values m) j) behind.new result }
{
    let r = member(table, s, j);
    let bridge = r.bridge as usize;
    if !is_receiver(m, r) {
        return at;
    }
    behind[at] = egress_row[bridge];
    at + 1
}

// The ports behind which the receivers of the transmitter `m` are, by the row of its bridge: one for each receiver, 0 where its path
// does not pass. Gives how many there are.
pub fn ports_behind(
    table: &[u8],
    s: Shape,
    egress_row: &[u16],
    m: Member,
    behind: &mut [u16],
) -> usize
    requires { Checked table.now s × (s.bridges ≤ length egress_row.now) × (64 ≤ length behind.old) }
    ensures { Appended behind.old 0 (ports_behind (words_of table.now) s egress_row.now (member_values m)) behind.new result }
{
    let mut at = 0;
    for j in 0..s.members {
        at = note_receiver(table, s, egress_row, m, j, behind, at);
    }
    at
}

// "a group entry for each port, ports rising: a port is listed as soon as one receiver behind it is found": `ports` are those of the
// bridge, rising, and `behind` has the port behind which each receiver is. Gives the place after the words.
pub fn group_words(
    ports: &[u16],
    behind: &[u16],
    vid: u32,
    address: u64,
    words: &mut [u32],
    at: usize,
) -> usize
    requires { Room words.old at (group_words ports.now behind.now vid address) × (vid < 4096) }
    ensures { Appended words.old at (group_words ports.now behind.now vid address) words.new result }
{
    let mut end = at;
    'ports: for port in ports {
        for receiver_port in behind {
            if *receiver_port == *port {
                end = write_entry(words, end, GROUP, vid, u32::from(*port), address);
                continue 'ports;
            }
        }
    }
    end
}
