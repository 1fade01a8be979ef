// The layout of a sub-TLV (RFC 6329, as 02, A2 has it) and of the member record of a service (01, "The table", kind 4): bytes, words, and
// the value of each field's lowest bit in its word.
use rule::kinds::MEMBER;

// "type 3".
pub const TYPE: u8 = 3;

// Bytes before the B-MAC: type and length.
pub const BEFORE_CONTENT: usize = 2;

// Bytes of B-MAC, reserved bits and Base VID.
pub const BEFORE_SERVICES: usize = 8;

// Bytes of a service: a word.
pub const SERVICE: usize = 4;

// How many values the lower half of a word has: the lowest 16 bits of the B-MAC stand above reserved bits and Base VID.
pub const HALF: u32 = 0x10000;

// How many values a Base VID of 12 bits has.
pub const VIDS: u32 = 0x1000;

// How many values an I-SID of 24 bits has.
pub const ISIDS: u32 = 0x1000000;

// T, the top bit of a service, and R, the bit below it.
pub const ADVERTISED_T: u32 = 0x80000000;

pub const ADVERTISED_R: u32 = 0x40000000;

// T and R in a member record's first word, and kind 4 above them.
pub const RECORD_T: u32 = 0x2000000;

pub const RECORD_R: u32 = 0x1000000;

pub const RECORD_KIND: u32 = MEMBER * 0x10000000;

// How many values an address of 48 bits has.
pub const ADDRESSES: u64 = 0x1000000000000;
