// Counting vectors.
ghost use Rattle.std.specs.Prelude.{◌≡◌};
ghost use Rattle.message_vector_table.specs.Tally.{counted, joined};

// How many vectors hold, and how many were tried.
#[derive(Clone, Copy, PartialEq, Eq)]
pub struct Tally {
    pub held: u32,
    pub tried: u32,
}

// The tally of no vectors.
pub const NONE: Tally = Tally { held: 0, tried: 0 };

impl Tally {
    // Returns the tally with one vector more.
    pub fn count(self, holds: bool) -> Tally
        ensures { result ≡ counted self holds }
    {
        Tally {
            held: self.held.wrapping_add(u32::from(holds)),
            tried: self.tried.wrapping_add(1),
        }
    }

    // Returns the sum of two tallies.
    pub fn join(self, other: Tally) -> Tally
        ensures { result ≡ joined self other }
    {
        Tally {
            held: self.held.wrapping_add(other.held),
            tried: self.tried.wrapping_add(other.tried),
        }
    }
}
