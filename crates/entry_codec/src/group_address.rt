// The group address of a transmitter and a service, and the bit that marks one (01, "Entries" and "The table").
ghost use Rattle.std.specs.Prelude.{◌≡◌, ◌<◌};
ghost use Rattle.rule.specs.Entries.{group_address};
ghost use Rattle.rule.specs.Records.{group_bit};

// The lowest bit of an address's first octet, the one that a group address has set.
const FIRST_OCTET_UNIT: u64 = 0x10000000000;

// The lowest of the "top 4 bits of SPsourceID", in the first octet.
const TOP_UNIT: u64 = 16;

// "the other 16 bits of SPsourceID": how many values they have.
const OTHER_VALUES: u64 = 0x10000;

// "the 24 bits of I-SID": how many values they have.
const ISIDS: u64 = 0x1000000;

// "The group address, first octet first: top 4 bits of SPsourceID then hexadecimal 3; the other 16 bits of SPsourceID; the 24 bits of
// I-SID."
pub fn group_address(source: u32, isid: u32) -> u64
    requires { (source < 1048576) × (isid < 16777216) }
    ensures { result ≡ group_address source isid }
{
    (source as u64 / OTHER_VALUES * TOP_UNIT + 3) * FIRST_OCTET_UNIT
        + source as u64 % OTHER_VALUES * ISIDS
        + isid as u64
}

// The group bit of an address.
pub fn group_bit(address: u64) -> u32
    ensures { (result ≡ group_bit address) × (result < 2) }
{
    (address / FIRST_OCTET_UNIT % 2) as u32
}
