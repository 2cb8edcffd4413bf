ghost use Rattle.std.specs.Prelude.{◌<◌, ◌≤◌};
ghost use Rattle.convoy_packets.specs.Assignment.{IsWithin};

/// A source of numbers that look as if by chance. They are always the same: each is made of the one
/// before by shifts.
#[derive(Drop)]
pub struct Chance {
    state: u64,
}

impl Chance {
    /// The source at its start.
    pub fn new() -> Chance {
        Chance {
            state: 0x9E37_79B9_7F4A_7C15,
        }
    }

    /// The next number, of 32 bits.
    fn next(&mut self) -> u64 {
        let mut state = self.state;
        state ^= state << 13;
        state ^= state >> 7;
        state ^= state << 17;
        self.state = state;
        state >> 32
    }

    /// A number below a count.
    pub fn below(&mut self, count: usize) -> usize
        requires { 0 < count }
        ensures { result < count }
    {
        (self.next() % count as u64) as usize
    }

    /// A delay of a range, in ticks: two times in five the least, as often the greatest, and else any.
    pub fn delay(&mut self, range: (u16, u16)) -> u16
        requires { range.0 ≤ range.1 }
        ensures { IsWithin range result }
    {
        let (least, most) = range;
        match self.below(5) {
            0 | 1 => least,
            2 | 3 => most,
            _ => least + self.below(usize::from(most - least) + 1) as u16,
        }
    }
}
