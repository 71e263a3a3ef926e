// A set of VCP codes 0 to 255 as four 64-bit words, one bit a code.
// Plain words, not a type of their own: Settings, which C takes as it is, has five such sets as its fields.
#![tactic(auto)]

ghost use Rattle.std.specs.Prelude.{◌≡◌, ◌<◌};
ghost use Rattle.codes.specs.Codes.{no_codes, member, bit_assigned, assigned, inserted, in_both, count_of, next_of};
ghost use Rattle.codes.specs.Words.{Weight, FirstBit};

// Returns the set of no code.
pub fn none() -> [u64; 4]
    ensures { result ≡ no_codes }
{
    [0; 4]
}

// Returns whether the code is in the set.
// The set is lent, so that a loop does not copy it for each code.
#[tactic(auto, unfolding(crate::specs::Codes::member, crate::specs::Codes::bit))]
pub fn contains(words: &[u64; 4], code: u8) -> bool
    ensures { result ≡ member words.now code }
{
    let i = usize::from(code / 64);
    let s = code % 64;
    (words[i] >> s) % 2 == 1
}

// Returns the set of the codes that are in both.
#[tactic(auto, unfolding(crate::specs::Codes::in_both))]
pub fn both(a: [u64; 4], b: [u64; 4]) -> [u64; 4]
    ensures { result ≡ in_both a b }
{
    // Four words, as `in_both` lists them: an iterator over both would be no plainer.
    [a[0] & b[0], a[1] & b[1], a[2] & b[2], a[3] & b[3]]
}

// Returns the word with bit s set or cleared.
fn with_bit(w: u64, s: u8, inside: bool) -> u64
    requires { s < 64 }
    ensures { result ≡ bit_assigned w s inside }
{
    let mask = 1u64 << s;
    if inside { w | mask } else { (w | mask) ^ mask }
}

// Returns the set with or without the code.
#[tactic(auto, unfolding(crate::specs::Codes::assigned))]
pub fn assign(words: [u64; 4], code: u8, inside: bool) -> [u64; 4]
    ensures { result ≡ assigned words code inside }
{
    let i = usize::from(code / 64);
    let mut w = words;
    w[i] = with_bit(w[i], code % 64, inside);
    w
}

// Returns the set with the code in it.
pub fn insert(words: [u64; 4], code: u8) -> [u64; 4]
    ensures { result ≡ inserted words code }
{
    assign(words, code, true)
}

// Returns how many bits of the word are set.
fn weight(w: u64) -> u32
    ensures { Weight w result }
{
    w.count_ones()
}

// Returns how many codes are in the set.
pub fn count(words: [u64; 4]) -> u32
    ensures { result ≡ count_of words }
{
    // Four terms: of `words.iter().map(..).sum()` it is not proved that the sum fits, which each word's bound of 64 shows here.
    weight(words[0]) + weight(words[1]) + weight(words[2]) + weight(words[3])
}

// Returns the least index from s on at which a bit of w is set, or 64, as `trailing_zeros` counts.
// The bits below s are masked out.
fn bit_from(w: u64, s: u8) -> u32
    requires { s < 64 }
    ensures { FirstBit w s result }
{
    let mask = u64::MAX - ((1u64 << s) - 1);
    (w & mask).trailing_zeros()
}

// Returns the least code from the given number on that is in the set, or nothing.
// From 256 on there is none.
pub fn next_from(words: [u64; 4], from: u16) -> Option<u8>
    ensures { result ≡ next_of words from }
{
    let mut s = (from % 64) as u8;
    // The number of a word is the upper part of its codes, so the loop counts it.
    for i in usize::from(from / 64)..4 {
        let t = bit_from(words[i], s);
        if t < 64 {
            // By "as": a usize has no From of a u32.
            return Some((i * 64 + t as usize) as u8);
        }
        s = 0;
    }
    None
}
