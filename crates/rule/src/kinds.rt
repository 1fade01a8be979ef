// The record kinds by their numbers, how many records of each a table may have, and how long that makes it (01, "The table"; 02, A5).

pub const BRIDGE: u32 = 1;

pub const HALF_LINK: u32 = 2;

pub const VID: u32 = 3;

pub const MEMBER: u32 = 4;

pub const TRAFFIC: u32 = 5;

pub const END: u32 = 15;

pub const MOST_BRIDGES: usize = 64;

pub const MOST_HALF_LINKS: usize = 512;

pub const MOST_VIDS: usize = 16;

pub const MOST_MEMBERS: usize = 64;

pub const MOST_TRAFFIC: usize = 256;

pub const MOST_ENDS: usize = 1;

// Bytes of the longest table: a bridge or half-link has 3 words, a VID 1, a member or traffic record 2, the end 1.
pub const LONGEST_TABLE: usize = 4
    * (3 * MOST_BRIDGES
        + 3 * MOST_HALF_LINKS
        + MOST_VIDS
        + 2 * MOST_MEMBERS
        + 2 * MOST_TRAFFIC
        + MOST_ENDS);
