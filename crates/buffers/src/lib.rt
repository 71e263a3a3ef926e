// Bytes and parts of slices, so that a caller has no length to prove: a byte that is not there is 0, a part is cut at
// the end, and bytes that do not fit into a buffer are not put.
#![tactic(auto)]

ghost use Rattle.std.specs.Prelude.{ℕ, ◌≡◌, ◌≢◌, [], ◌∷◌, ◌+◌, ◌<◌, ◌≤◌, ◌++◌, length, min, leb, get_or, take, drop};
ghost use Rattle.buffers.specs.Buffers.{part_of, put_whole};

// Returns the byte at an index, or 0 past the end.
pub fn octet(s: &[u8], i: usize) -> u8
    ensures { result ≡ get_or s.now i 0 }
{
    s.get(i).copied().unwrap_or(0)
}

// Returns the first n elements, or all where there are fewer.
pub fn front<T>(s: &[T], n: usize) -> &[T]
    ensures { result.now ≡ take n s.now }
{
    &s[..n.min(s.len())]
}

// Returns the first n bytes that are to be changed, or all where there are fewer.
// It serves programs: of a part that is handed out to be changed, a contract says only what it holds at first.
// A twin of `front`: no function is generic over whether its part may be changed.
pub fn front_mut(s: &mut [u8], n: usize) -> &mut [u8]
    ensures { result.now ≡ take n s.old }
{
    let most = n.min(s.len());
    &mut s[..most]
}

// Returns what stands behind the first n elements.
pub fn behind<T>(s: &[T], n: usize) -> &[T]
    ensures { result.now ≡ drop n s.now }
{
    &s[n.min(s.len())..]
}

// Returns the n bytes from an index on, or as many as there are.
pub fn part(s: &[u8], at: usize, n: usize) -> &[u8]
    ensures { result.now ≡ part_of s.now at n }
{
    front(behind(s, at), n)
}

// Returns whether n bytes from an index on lie within a length.
pub fn fits(room: usize, at: usize, n: usize) -> bool
    ensures { result ≡ leb (at + n) room }
{
    at <= room && n <= room - at
}

// Copies bytes to the front of a buffer; none, where they do not all fit.
// Returns how many it copied.
pub fn copy(s: &[u8], out: &mut [u8]) -> usize
    ensures whole { length s.now ≤ length out.old → (result ≡ length s.now) × (out.new ≡ s.now ++ drop (length s.now) out.old) }
    ensures none { length out.old < length s.now → (result ≡ 0) × (out.new ≡ out.old) }
{
    if out.len() < s.len() {
        return 0;
    }
    out[..s.len()].copy_from_slice(s);
    s.len()
}

// Puts bytes into a buffer from an index on; nothing, where they do not all fit.
pub fn put(out: &mut [u8], at: usize, s: &[u8])
    ensures { out.new ≡ put_whole out.old at s.now }
{
    if fits(out.len(), at, s.len()) {
        out[at..at + s.len()].copy_from_slice(s);
    }
}

// Puts a byte into a buffer at an index; nothing, where the buffer ends before it.
pub fn put_octet(out: &mut [u8], at: usize, b: u8)
    ensures { out.new ≡ put_whole out.old at (b ∷ []) }
{
    if at < out.len() {
        out[at] = b;
    }
}

// Returns the index of the first byte b from an index on, or the length where there is none.
// Behind the end there is none. The length, not an `Option`: callers cut the slice there.
pub fn find(s: &[u8], from: usize, b: u8) -> usize
    ensures after { min from (length s.now) ≤ result }
    ensures within { result ≤ length s.now }
    ensures before { (k : ℕ) → from ≤ k → k < result → get_or s.now k 0 ≢ b }
    ensures found { result < length s.now → get_or s.now result 0 ≡ b }
{
    match behind(s, from).iter().position(|x| *x == b) {
        Some(i) => from + i,
        None => s.len(),
    }
}
