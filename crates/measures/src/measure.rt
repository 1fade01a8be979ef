// A path's cost and its hop count: two types, so that "a path's cost and its hop count are never added together"
// (01, "The chosen path"), nor one taken for the other.
ghost use Rattle.std.specs.Prelude.{◌≡◌, not, eqb, ltb, ◌+◌, ◌<◌};
ghost use Rattle.measures.specs.Measures.{no_path_cost};

#[derive(Clone, Copy)]
pub struct Cost(pub u32);

#[derive(Clone, Copy)]
pub struct Hops(pub u32);

impl Cost {
    // The greatest number of 32 bits, which no path costs.
    pub const NO_PATH: Cost = Cost(4294967295);

    // What exported path cost adds to the number of a refusal: more than any cost.
    pub const REFUSED: u64 = 4294967296;

    // "Its cost is the sum of its hops' costs."
    pub fn plus(self, hop: Cost) -> Cost
        requires { self.0 + hop.0 < 4294967296 }
        ensures { result.0 ≡ self.0 + hop.0 }
    {
        Cost(self.0 + hop.0)
    }

    pub fn is_below(self, cost: Cost) -> bool
        ensures { result ≡ ltb self.0 cost.0 }
    {
        self.0 < cost.0
    }

    pub fn differs(self, cost: Cost) -> bool
        ensures { result ≡ not (eqb self.0 cost.0) }
    {
        self.0 != cost.0
    }

    // "No path exists."
    pub fn is_no_path(self) -> bool
        ensures { result ≡ eqb self.0 no_path_cost }
    {
        self.0 == Cost::NO_PATH.0
    }

    // "the cost as a 64-bit number".
    pub fn exported(self) -> u64
        ensures { result ≡ self.0 }
    {
        self.0 as u64
    }
}

impl Hops {
    pub fn plus(self, more: Hops) -> Hops
        requires { self.0 + more.0 < 4294967296 }
        ensures { result.0 ≡ self.0 + more.0 }
    {
        Hops(self.0 + more.0)
    }

    pub fn is_below(self, hops: Hops) -> bool
        ensures { result ≡ ltb self.0 hops.0 }
    {
        self.0 < hops.0
    }

    pub fn differs(self, hops: Hops) -> bool
        ensures { result ≡ not (eqb self.0 hops.0) }
    {
        self.0 != hops.0
    }

    // "Its hop count is the number of bridges in the list less one": how many bridges a path of so many hops has.
    pub fn bridges(self) -> usize
        ensures { result ≡ self.0 + 1 }
    {
        self.0 as usize + 1
    }

    // How many bridges it has besides its first.
    pub fn count(self) -> usize
        ensures { result ≡ self.0 }
    {
        self.0 as usize
    }
}
