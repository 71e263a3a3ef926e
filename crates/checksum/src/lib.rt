// The checksum of a message (the papers' check): the exclusive-or of its bytes with a seed.
// It is taken of eight bytes at a time, as one number, and of those that are left singly.
#![tactic(auto)]

ghost use Rattle.std.specs.Prelude.{◌≡◌};
ghost use Rattle.checksum.specs.Words.{folded};
ghost use Rattle.checksum.specs.Xor.{xor_all};

// The bytes of a word, which is one 64-bit number.
const WORD: usize = 8;

// Returns the exclusive-or of a word's eight bytes.
// The upper half is laid over the lower one, three times.
// A fold over `w.to_le_bytes()` says the same, at twice the inliner's cost: the builders of messages would not be inlined.
fn fold(w: u64) -> u8
    ensures { result ≡ folded 8 w }
{
    let four = w ^ (w >> 32);
    let two = four ^ (four >> 16);
    let one = two ^ (two >> 8);
    (one % 256) as u8
}

// Returns the exclusive-or of all bytes of s with the seed, one byte after the other.
// It is for few bytes: those behind the words, and the head of a message.
pub fn singly(seed: u8, s: &[u8]) -> u8
    ensures { result ≡ xor_all seed s.now }
{
    s.iter().fold(seed, |sum, b| sum ^ *b)
}

// Returns the exclusive-or of all bytes of s with the seed; of no bytes it is the seed.
// The words are taken together as numbers, each of which is one load on x86-64.
// The bytes of what they come to are taken together once, at the end; where there is no word, not at all.
pub fn checksum(seed: u8, s: &[u8]) -> u8
    ensures { result ≡ xor_all seed s.now }
{
    let (words, rest) = s.as_chunks::<WORD>();
    let sum = if s.len() < WORD {
        seed
    } else {
        let all = words
            .iter()
            .fold(u64::from(seed), |all, w| all ^ u64::from_le_bytes(*w));
        fold(all)
    };
    singly(sum, rest)
}
