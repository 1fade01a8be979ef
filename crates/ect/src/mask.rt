// ECT masks and masked identifiers (01, "The chosen path").
ghost use Rattle.std.specs.Prelude.{◌≡◌, ◌≤◌};
ghost use Rattle.rule.specs.Identifiers.{mask_of, masked_bytes};
ghost use Rattle.ect.specs.Masks.{spread};

// "ECT masks, index 1 to 16, hexadecimal".
const MASKS: [u8; 16] = [
    0x00, 0xff, 0x88, 0x77, 0x44, 0x33, 0xcc, 0xbb, 0x22, 0x11, 0x66, 0x55, 0xaa, 0x99, 0xdd, 0xee,
];

// The mask of an ECT index.
pub fn mask_of(index: u32) -> u8
    requires { (1 ≤ index) × (index ≤ 16) }
    ensures { result ≡ mask_of index }
{
    MASKS[index as usize - 1]
}

// The mask in each of eight bytes.
fn spread_mask(mask: u8) -> u64
    ensures { result ≡ spread 8 mask }
{
    mask as u64 * 0x0101010101010101
}

// "Each of the eight bytes of a Bridge Identifier is XORed with the mask": all eight at once.
pub fn masked_identifier(identifier: u64, mask: u8) -> u64
    ensures { result ≡ masked_bytes 8 mask identifier }
{
    identifier ^ spread_mask(mask)
}
