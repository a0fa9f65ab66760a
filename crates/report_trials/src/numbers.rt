ghost use Rattle.std.specs.Prelude.{◌<◌};

use test_words::texts::next_random;

// Numbers that look random.
#[derive(Drop)]
pub(crate) struct Numbers {
    pub(crate) state: u64,
}

impl Numbers {
    pub(crate) fn next(&mut self) -> usize {
        self.state = next_random(self.state);
        (self.state >> 40) as usize
    }

    // A number below `limit`.
    pub(crate) fn below(&mut self, limit: usize) -> usize
        requires { 0 < limit }
        ensures { result < limit }
    {
        self.next() % limit
    }
}
