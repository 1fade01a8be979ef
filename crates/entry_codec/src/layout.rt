// The layout of an entry (01, "Entries"): its two kinds, the value of each field's lowest bit in its word, and how many values a field has.

// "kind 8 (individual)".
pub const INDIVIDUAL: u32 = 8;

// "or 9 (group)".
pub const GROUP: u32 = 9;

// Kind "in bits 31..28".
pub const KIND_UNIT: u32 = 0x10000000;

pub const KINDS: u32 = 16;

// "VID in 27..16".
pub const VID_UNIT: u32 = 0x10000;

pub const VIDS: u32 = 4096;

// "port in 15..0".
pub const PORTS: u32 = 0x10000;

// The lowest of "the upper 16 bits of address", in the address.
pub const UPPER_UNIT: u64 = 0x100000000;

pub const UPPER_VALUES: u32 = 0x10000;
