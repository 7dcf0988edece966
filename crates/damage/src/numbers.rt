// Numbers that look random, the same in every run: a linear congruential generator.
ghost use Rattle.std.specs.Prelude.{◌≡◌, ◌<◌, MatchOption};

#[derive(Drop)]
pub struct Numbers {
    state: u64,
}

impl Numbers {
    pub fn new(start: u64) -> Numbers {
        Numbers { state: start }
    }

    // The next number, of 31 bits.
    pub fn draw(&mut self) -> usize {
        self.state = self
            .state
            .wrapping_mul(6364136223846793005)
            .wrapping_add(1442695040888963407);
        (self.state >> 33) as usize
    }

    // A place among so many, nothing where there is none.
    pub fn place(&mut self, count: usize) -> Option<usize>
        ensures { MatchOption result (count ≡ 0) (λ n. n < count) }
    {
        if count == 0 {
            return None;
        }
        Some(self.draw() % count)
    }

    pub fn octet(&mut self) -> u8 {
        (self.draw() & 0xff) as u8
    }
}
