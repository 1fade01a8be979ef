// What the readers of records and of entries share: two words as one number, and limits.
ghost use Rattle.std.specs.Prelude.{◌≡◌, ◌+◌, ◌*◌};
ghost use Rattle.rule.specs.Records.{in_limits};

// Two words as one number of 64 bits.
pub fn two_words(upper: u32, lower: u32) -> u64
    ensures { result ≡ upper * 4294967296 + lower }
{
    upper as u64 * 4294967296 + lower as u64
}

// Whether a value is within its limits.
pub fn within(value: u64, least: u64, greatest: u64) -> bool
    ensures { result ≡ in_limits (record { least = least; greatest = greatest }) value }
{
    if value < least {
        return false;
    }
    value <= greatest
}
