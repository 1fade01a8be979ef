// PATHIDs compared (01, "The chosen path": "compared place by place as unsigned numbers"; 02, A4): two lent lists, where they stand.
ghost use Rattle.std.specs.Prelude.{◌≡◌, length};
ghost use Rattle.ect.specs.Comparisons.{says_lower, comparison_of, decided_by};

// Whether the first list is lower than the second, equal to it, or higher.
#[derive(Clone, Copy)]
pub enum Order {
    Lower,
    Equal,
    Higher,
}

impl Order {
    // What a tie asks: whether the first list is the lower.
    pub fn is_lower(self) -> bool
        ensures { result ≡ says_lower self }
    {
        match self {
            Order::Lower => true,
            Order::Equal => false,
            Order::Higher => false,
        }
    }
}

// "It answers with the order and the number of places looked at".
#[derive(Clone, Copy)]
pub struct Comparison {
    pub order: Order,
    pub places: usize,
}

// The answer where the numbers `x` and `y` at a place, counted from 1, are the first that differ.
fn decided(x: u64, y: u64, place: usize) -> Comparison
    ensures { result ≡ decided_by x y place }
{
    if x < y {
        return Comparison {
            order: Order::Lower,
            places: place,
        };
    }
    Comparison {
        order: Order::Higher,
        places: place,
    }
}

// Compares two lists of equal length up to the first place that differs, and counts the places before it that agree.
pub fn compare(first: &[u64], second: &[u64]) -> Comparison
    requires { length first.now ≡ length second.now }
    ensures { result ≡ comparison_of first.now second.now }
{
    for agreeing in 0..first.len() {
        let x = first[agreeing];
        let y = second[agreeing];
        if x != y {
            return decided(x, y, agreeing + 1);
        }
    }
    Comparison {
        order: Order::Equal,
        places: first.len(),
    }
}
