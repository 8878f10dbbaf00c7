//! Numbers that look drawn by lot, and are the same at every run.
ghost use Rattle.std.specs.Prelude.{◌<◌, ◌≤◌, ◌≡◌, length};

// Each as likely as any other, so that they are 1 on average and the seldomer the greater (an
// exponential distribution): `-ln((k + 1/2) / 64)`, in 1,024ths.
const RARE: [u64; 64] = [
    4968, 3844, 3320, 2976, 2719, 2513, 2342, 2195, 2067, 1953, 1851, 1758, 1672, 1594, 1520, 1452,
    1388, 1328, 1271, 1217, 1166, 1117, 1070, 1026, 983, 942, 903, 865, 828, 793, 759, 726, 694,
    663, 633, 603, 575, 547, 520, 494, 469, 444, 419, 395, 372, 349, 327, 305, 284, 263, 243, 223,
    203, 184, 165, 146, 128, 110, 92, 75, 58, 41, 24, 8,
];

// How far apart generators begin: 2^64 by the golden ratio.
const APART: u64 = 11_400_714_819_323_198_485;

/// A linear congruential generator modulo 2^64, with Knuth's factor ("The Art of Computer
/// Programming", volume 2, 3.3.4).
#[derive(Clone, Copy, Debug, PartialEq, Eq)]
pub struct Generator {
    state: u64,
}

impl Generator {
    /// The generator of this number, each with numbers of its own.
    pub fn new(number: u32) -> Generator {
        Generator {
            state: u64::from(number).wrapping_mul(APART).wrapping_add(1),
        }
    }

    /// The next number below the count. Only the upper half of the state is used, since the lower
    /// bits of such a generator repeat early.
    pub fn below(&mut self, count: usize) -> usize
        requires { 0 < count }
        ensures { result < count }
    {
        self.state = self
            .state
            .wrapping_mul(6_364_136_223_846_793_005)
            .wrapping_add(1_442_695_040_888_963_407);
        (self.state >> 32) as usize % count
    }

    /// A number that is drawn by lot, so great at the most.
    pub fn up_to(&mut self, most: u16) -> u16
        ensures { result ≤ most }
    {
        self.below(usize::from(most) + 1) as u16
    }

    /// A number that is drawn by lot, the seldomer the greater it is, and so great on average. The
    /// average is told in 1,024ths.
    pub fn rare(&mut self, mean: u64) -> i64 {
        let drawn = mean.saturating_mul(RARE[self.below(64)]) >> 20;
        drawn.min(1 << 60) as i64
    }

    /// Puts the items into another order (the shuffle of Fisher and Yates).
    pub fn mix<T>(&mut self, items: &mut [T])
        ensures { length items.new ≡ length items.old }
    {
        for end in 1..items.len() {
            let at = self.below(end + 1);
            items.swap(at, end);
        }
    }
}
