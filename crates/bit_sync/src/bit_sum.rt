//! One data bit, summed push by push.

ghost use Rattle.std.specs.Prelude.{◌≡◌, ◌<◌, ◌≤◌, ◌*◌, ℤ, List, [], ◌∷◌, ◌++◌, length, Some};
ghost use Rattle.std.specs.Prelude.{None, unsigned_abs};
ghost use Rattle.bit_sync.specs.declared.bit_sum.TheConstants.{PUSHES_OF_BIT, MOST_PUSH};

/// The code periods of one data bit (IS-GPS-200, section 3.2.2).
const PUSHES_OF_BIT: u8 = 20;

/// The greatest size of a push: of a sum over one code period.
pub const MOST_PUSH: u32 = 1 << 18;

/// The pushes of the data bit that isn't whole yet.
#[derive(Debug, Drop)]
pub struct BitSum {
    /// The number of pushes, fewer than `PUSHES_OF_BIT`.
    count: u8,
    sum: i32,
    ghost count_in_range: { count < PUSHES_OF_BIT },
    ghost sum_in_range: { unsigned_abs sum ≤ count * MOST_PUSH },
}

impl BitSum {
    ghost use Rattle.definitions.specs.BitEdge.{edge_of, bits_of};
    ghost use Rattle.bit_sync.specs.Standing.{IsSumming, whole_bits};

    /// Begins bit 0 with the push that is the edge.
    pub fn begun_with(ip: i32) -> Self
        requires { unsigned_abs ip ≤ MOST_PUSH }
        ensures { (pushes : List ℤ) → edge_of (pushes ++ ip ∷ []) ≡ Some (length pushes)
            → IsSumming (pushes ++ ip ∷ []) result }
    {
        BitSum { count: 1, sum: ip }
    }

    /// Takes the next push, and gives the bit that is whole with it, if one is: `true` where its
    /// pushes sum up to less than zero.
    pub fn push(&mut self, ip: i32) -> Option<bool>
        requires { unsigned_abs ip ≤ MOST_PUSH }
        ensures goes_on { (pushes : List ℤ) → IsSumming pushes self.old
            → IsSumming (pushes ++ ip ∷ []) self.new }
        ensures bit { (pushes : List ℤ) → IsSumming pushes self.old
            → bits_of (pushes ++ ip ∷ []) ≡ bits_of pushes ++ whole_bits result }
    {
        self.sum += ip;
        self.count += 1;
        if self.count < PUSHES_OF_BIT {
            return None;
        }
        let is_one = self.sum < 0;
        self.count = 0;
        self.sum = 0;
        Some(is_one)
    }
}
