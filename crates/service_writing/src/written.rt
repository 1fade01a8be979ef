// Sub-TLVs written to a lent list of bytes (02, A2). Each writer writes from the place `at` on and gives the place after it.
ghost use Rattle.std.specs.Prelude.{◌≡◌, ◌+◌, ◌/◌, ◌<◌, ◌≤◌, min, length};
ghost use mathlib.Core.List.{flat_map};
ghost use Rattle.lists.specs.Appending.{Appended, Room};
ghost use Rattle.rule.specs.Words.{bytes_of};
ghost use Rattle.rule.specs.Services.{sub_tlv, sub_tlvs};
ghost use Rattle.service_writing.specs.Heads.{start_of, head_of};

use readers::words::write_word;
use service_reading::layout::{BEFORE_SERVICES, HALF, SERVICE, TYPE};

// "each but the last with 60 services".
const SERVICES_EACH: usize = 60;

// Type and length.
fn write_start(bytes: &mut [u8], at: usize, services: usize) -> usize
    requires { (at + 2 ≤ length bytes.old) × (services ≤ 60) }
    ensures { Appended bytes.old at (start_of services) bytes.new result }
{
    bytes[at] = TYPE;
    bytes[at + 1] = (BEFORE_SERVICES + SERVICE * services) as u8;
    at + 2
}

// What stands before the services: type, length, B-MAC, reserved bits and Base VID.
fn write_head(bytes: &mut [u8], at: usize, b_mac: u64, vid: u32, services: usize) -> usize
    requires { (at + 10 ≤ length bytes.old) × (services ≤ 60) × (b_mac < 281474976710656) × (vid < 65536) }
    ensures { Appended bytes.old at (head_of b_mac vid services) bytes.new result }
{
    let after_start = write_start(bytes, at, services);
    let after_first = write_word(bytes, after_start, (b_mac / HALF as u64) as u32);
    write_word(
        bytes,
        after_first,
        (b_mac % HALF as u64) as u32 * HALF + vid,
    )
}

// The bytes of services.
fn write_services(bytes: &mut [u8], at: usize, services: &[u32]) -> usize
    requires { Room bytes.old at (flat_map bytes_of services.now) }
    ensures { Appended bytes.old at (flat_map bytes_of services.now) bytes.new result }
{
    let mut end = at;
    for service in services {
        end = write_word(bytes, end, *service);
    }
    end
}

// One sub-TLV.
fn write_sub_tlv(bytes: &mut [u8], at: usize, b_mac: u64, vid: u32, services: &[u32]) -> usize
    requires room { Room bytes.old at (sub_tlv b_mac vid services.now) }
    requires services_len_bound { (length services.now ≤ 60) × (b_mac < 281474976710656) × (vid < 65536) }
    ensures { Appended bytes.old at (sub_tlv b_mac vid services.now) bytes.new result }
{
    let after_head = write_head(bytes, at, b_mac, vid, services.len());
    write_services(bytes, after_head, services)
}

// How many sub-TLVs hold so many services.
pub fn sub_tlv_count(services: usize) -> usize
    requires { services ≤ 64 }
    ensures { result ≡ (services + 59) / 60 }
{
    (services + SERVICES_EACH - 1) / SERVICES_EACH
}

// Where the services of a sub-TLV end that begin at the service `from`.
fn part_end(from: usize, services: usize) -> usize
    requires { (from ≤ services) × (services ≤ 64) }
    ensures { result ≡ min (from + 60) services }
{
    services.min(from + SERVICES_EACH)
}

// All of them, "each but the last with 60 services", to the front of the lent list.
pub fn write_sub_tlvs(bytes: &mut [u8], b_mac: u64, vid: u32, services: &[u32]) -> usize
    requires room { Room bytes.old 0 (sub_tlvs b_mac vid services.now) }
    requires services_len_bound { (length services.now ≤ 64) × (b_mac < 281474976710656) × (vid < 65536) }
    ensures { Appended bytes.old 0 (sub_tlvs b_mac vid services.now) bytes.new result }
{
    let count = sub_tlv_count(services.len());
    let mut at = 0;
    for i in 0..count {
        let from = SERVICES_EACH * i;
        let to = part_end(from, services.len());
        at = write_sub_tlv(bytes, at, b_mac, vid, &services[from..to]);
    }
    at
}
