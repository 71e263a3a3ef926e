// What became of the exchanges of a transfer, in numbers.
ghost use Rattle.std.specs.Prelude.{◌≡◌};
ghost use Rattle.day_line.specs.Tally.{tallied, all_told};

use crate::Fate;

// What became of the exchanges that were counted.
#[derive(Clone, Copy, Default)]
pub struct Tally {
    // How many were accepted.
    pub accepted: u64,
    // How many were not, their request or reply being lost.
    pub lost: u64,
    // How many were not, their reply being cut.
    pub cut: u64,
    // How many were not, a bit of their reply being flipped.
    pub flipped: u64,
    // How many were not, the last reply having come again.
    pub repeated: u64,
}

impl Tally {
    // Counts one more exchange. It counts as spoiled where it was not accepted.
    #[tactic(auto, unfolding(crate::specs::Tally::tallied))]
    pub fn count(&mut self, fate: Fate, accepted: bool)
        ensures { self.new ≡ tallied self.old fate accepted }
    {
        match fate {
            _ if accepted => self.accepted = self.accepted.wrapping_add(1),
            Fate::Good => {}
            Fate::RequestLost | Fate::ReplyLost => self.lost = self.lost.wrapping_add(1),
            Fate::Cut => self.cut = self.cut.wrapping_add(1),
            Fate::Flipped => self.flipped = self.flipped.wrapping_add(1),
            Fate::Repeated => self.repeated = self.repeated.wrapping_add(1),
        }
    }

    // Returns whether this many exchanges were all accepted or spoiled.
    // Then what the line left alone was never refused.
    #[tactic(auto, unfolding(crate::specs::Tally::all_told))]
    pub fn all_told(&self, count: u16) -> bool
        ensures { result ≡ all_told self.now count }
    {
        let lost = self.lost.wrapping_add(self.cut);
        let other = self.flipped.wrapping_add(self.repeated);
        self.accepted.wrapping_add(lost).wrapping_add(other) == u64::from(count)
    }
}
