// Where the companions of the nodes stand in the new table.
ghost use Rattle.std.specs.Prelude.{◌≡◌, ◌<◌, get_or, slice_set};

use table::MOST_RECORDS;

// The positions of both companions of each node: V and D, or P and N.
// Kept: the library has no heap, so they stand by value in two arrays of as many places as a table can have records.
#[derive(Drop)]
pub struct Positions {
    pub firsts: [u32; MOST_RECORDS],
    pub seconds: [u32; MOST_RECORDS],
}

impl Positions {
    // Keeps both positions of node `n`.
    pub fn keep(&mut self, n: usize, first: u32, second: u32)
        requires { n < 5_000 }
        ensures firsts { self.new.firsts ≡ slice_set self.old.firsts n first }
        ensures seconds { self.new.seconds ≡ slice_set self.old.seconds n second }
    {
        self.firsts[n] = first;
        self.seconds[n] = second;
    }
}

// The position that is kept of node `n`: 0 where there is none.
pub fn kept(positions: &[u32; MOST_RECORDS], n: usize) -> u32
    ensures { result ≡ get_or positions.now n 0 }
{
    positions.get(n).copied().unwrap_or(0)
}
