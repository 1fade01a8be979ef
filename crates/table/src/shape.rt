// How many records of each kind have been read. Kinds never fall, so that this says where every record stands, where the next one
// begins and which kind came last.
ghost use Rattle.std.specs.Prelude.{◌≡◌, ◌<◌};
ghost use Rattle.table.specs.Positions.{half_links_from, vids_from, members_from, traffic_from, words_read, last_kind};

use rule::kinds::{BRIDGE, HALF_LINK, MEMBER, TRAFFIC, VID};

#[derive(Clone, Copy)]
pub struct Shape {
    pub bridges: usize,
    pub half_links: usize,
    pub vids: usize,
    pub members: usize,
    pub traffic: usize,
}

impl Shape {
    // The first word of the half-links.
    pub fn half_links_from(self) -> usize
        requires { words_read self < 4294967296 }
        ensures { result ≡ half_links_from self }
    {
        3 * self.bridges
    }

    // The first word of the VIDs.
    pub fn vids_from(self) -> usize
        requires { words_read self < 4294967296 }
        ensures { result ≡ vids_from self }
    {
        self.half_links_from() + 3 * self.half_links
    }

    // The first word of the members.
    pub fn members_from(self) -> usize
        requires { words_read self < 4294967296 }
        ensures { result ≡ members_from self }
    {
        self.vids_from() + self.vids
    }

    // The first word of the traffic (02, A5).
    pub fn traffic_from(self) -> usize
        requires { words_read self < 4294967296 }
        ensures { result ≡ traffic_from self }
    {
        self.members_from() + 2 * self.members
    }

    // The words of all the records read: the first word of the next record.
    pub fn words_read(self) -> usize
        requires { words_read self < 4294967296 }
        ensures { result ≡ words_read self }
    {
        self.traffic_from() + 2 * self.traffic
    }

    // The kind of the last record read, 0 before the first.
    pub fn last_kind(self) -> u32
        ensures { result ≡ last_kind self }
    {
        if 0 < self.traffic {
            return TRAFFIC;
        }
        if 0 < self.members {
            return MEMBER;
        }
        if 0 < self.vids {
            return VID;
        }
        if 0 < self.half_links {
            return HALF_LINK;
        }
        if 0 < self.bridges {
            return BRIDGE;
        }
        0
    }
}
