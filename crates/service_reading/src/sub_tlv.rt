// The bytes of a sub-TLV: whether it is one, and its fields (02, A2).
ghost use Rattle.std.specs.Prelude.{◌≡◌, false, ◌<◌, ◌≤◌, length};
ghost use Rattle.rule.specs.Words.{words_of};
ghost use Rattle.rule.specs.Services.{no_sub_tlv, b_mac_of, base_vid_of, isid_of};

use crate::layout::{BEFORE_CONTENT, BEFORE_SERVICES, HALF, ISIDS, SERVICE, TYPE, VIDS};
use readers::words::word_at;

// 15: "fewer than 10 bytes are there, type is not 3, or length is not the number of bytes that follow it or not 8 plus a multiple of 4".
pub fn is_no_sub_tlv(bytes: &[u8]) -> bool
    ensures { (result ≡ no_sub_tlv bytes.now) × (result ≡ false → length bytes.now ≤ 257) }
{
    if bytes.len() < BEFORE_CONTENT + BEFORE_SERVICES {
        return true;
    }
    if bytes[0] != TYPE {
        return true;
    }
    let length = usize::from(bytes[1]);
    if length != bytes.len() - BEFORE_CONTENT {
        return true;
    }
    (length - BEFORE_SERVICES) % SERVICE != 0
}

// The B-MAC of the bytes after the length.
pub fn b_mac(content: &[u8]) -> u64
    requires { 8 ≤ length content.now }
    ensures { result ≡ b_mac_of (words_of content.now) }
{
    let lowest = word_at(content, 1) / HALF;
    word_at(content, 0) as u64 * HALF as u64 + lowest as u64
}

// Their Base VID: "Reserved bits are ignored on reading".
pub fn base_vid(content: &[u8]) -> u32
    requires { 8 ≤ length content.now }
    ensures { (result ≡ base_vid_of (words_of content.now)) × (result < 4096) }
{
    word_at(content, 1) % VIDS
}

// The I-SID of a service.
pub fn isid_of(service: u32) -> u32
    ensures { result ≡ isid_of service }
{
    service % ISIDS
}
