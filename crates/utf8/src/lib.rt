// UTF-8 by RFC 3629's table of byte sequences: one sequence after the other, with fast paths for runs of bytes below 80
// hex and for runs of other characters.
#![tactic(auto)]

ghost use Rattle.std.specs.Prelude.{◌≡◌, false, ◌∷◌, ◌+◌, ◌≤◌, ◌<◌, length, get_or, drop};
ghost use Rattle.utf8.specs.Utf8.{◌to◌, tails, utf8_of};
ghost use Rattle.utf8.specs.Steps.{Low, Passed, Stepped, Followed, Fits, Fitting, Settled, Windows};

// The w bytes from i, or-ed: not below 80 hex where one of them isn't. With no early exit this compiles to vector
// loads.
fn or_bytes(s: &[u8], i: usize, w: usize) -> u8
    requires { i + w ≤ length s.now }
    ensures { result < 0x80 → Low w s.now i }
{
    let mut all: u8 = 0;
    for k in 0..w {
        all |= s[i + k];
    }
    all
}

// Past bytes below 80 hex, w at a time.
fn past_low(s: &[u8], from: usize, w: usize) -> usize
    requires { (from ≤ length s.now) × (0 < w) }
    ensures { Passed s.now from result }
{
    let mut i = from;
    while w <= s.len() - i {
        if 0x80 <= or_bytes(s, i, w) {
            return i;
        }
        i += w;
    }
    i
}

// Past the bytes below 80 hex from a place on: long runs by vectors, what is left of them by words and then by bytes.
fn past_ascii(s: &[u8], from: usize) -> usize
    requires { from ≤ length s.now }
    ensures { Passed s.now from result }
{
    past_low(s, past_low(s, past_low(s, from, 64), 8), 1)
}

// Past the byte at i and the n bytes of 80 to BF after it; 0 where they don't all follow.
fn past_tails(s: &[u8], i: usize, n: usize) -> usize
    requires { i < length s.now }
    ensures { Followed (tails n) s.now i result }
{
    let mut at = i + 1;
    let mut left = n;
    while left != 0 {
        // past the end this is 0, so that a sequence that is cut off stops here too
        let b = wire::u8_at(s, at);
        if b < 0x80 {
            return 0;
        }
        if 0xC0 <= b {
            return 0;
        }
        at += 1;
        left -= 1;
    }
    at
}

// Past the byte at i, one from low to high after it and n bytes of 80 to BF after that; 0 where they don't all follow.
fn past_second(s: &[u8], i: usize, low: u8, high: u8, n: usize) -> usize
    requires { (i < length s.now) × (0 < low) }
    ensures { Followed (low to high ∷ tails n) s.now i result }
{
    let b = wire::u8_at(s, i + 1);
    if b < low {
        return 0;
    }
    if high < b {
        return 0;
    }
    past_tails(s, i + 1, n)
}

// Past the sequence of several bytes at i, by the table's rows; 0 where no whole one stands there.
fn past_several(s: &[u8], i: usize) -> usize
    requires { (i < length s.now) × (0x80 ≤ get_or s.now i 0) }
    ensures { Stepped (utf8_of (drop i s.now)) s.now i result }
{
    let b = s[i];
    if b < 0xC2 {
        return 0;
    }
    if b < 0xE0 {
        return past_tails(s, i, 1);
    }
    if b == 0xE0 {
        return past_second(s, i, 0xA0, 0xBF, 1);
    }
    if b == 0xED {
        return past_second(s, i, 0x80, 0x9F, 1);
    }
    if b < 0xF0 {
        return past_tails(s, i, 2);
    }
    if b == 0xF0 {
        return past_second(s, i, 0x90, 0xBF, 2);
    }
    if b < 0xF4 {
        return past_tails(s, i, 3);
    }
    if b == 0xF4 {
        return past_second(s, i, 0x80, 0x8F, 2);
    }
    0
}

// Whether d can't stand after the bytes a, b and c. With no branches a loop over it compiles to vectors.
fn misfit(a: u8, b: u8, c: u8, d: u8) -> bool
    ensures { result ≡ false → Fits a b c d }
{
    let owed = (0xC0 <= c) | (0xE0 <= b) | (0xF0 <= a);
    let tail = (0x80 <= d) & (d < 0xC0);
    let first = ((0xC0 <= d) & (d < 0xC2)) | (0xF5 <= d);
    let three = ((c == 0xE0) & (d < 0xA0)) | ((c == 0xED) & (0xA0 <= d));
    let four = ((c == 0xF0) & (d < 0x90)) | ((c == 0xF4) & (0x90 <= d));
    (owed ^ tail) | first | three | four
}

// Whether one of the w bytes from i + 3 can't stand after the three before it.
fn misfits(s: &[u8], i: usize, w: usize) -> bool
    requires { i + 3 + w ≤ length s.now }
    ensures { result ≡ false → Fitting w s.now i }
{
    let mut any = false;
    for k in 0..w {
        any = any | misfit(s[i + k], s[i + k + 1], s[i + k + 2], s[i + k + 3]);
    }
    any
}

// Past bytes that can stand after the three before them, w at a time, as long as not all of them are below 80 hex; both
// places are three bytes before the byte that is meant.
fn past_windows(s: &[u8], from: usize, w: usize) -> usize
    requires { (from + 3 ≤ length s.now) × (0 < w) }
    ensures { Windows s.now from result }
{
    let mut i = from;
    while w <= s.len() - 3 - i {
        if or_bytes(s, i + 3, w) < 0x80 {
            return i;
        }
        if misfits(s, i, w) {
            return i;
        }
        i += w;
    }
    i
}

// Whether a sequence that begins among the three bytes from i goes on after them.
fn goes_on(s: &[u8], i: usize) -> bool
    requires { i + 3 ≤ length s.now }
    ensures { result ≡ false → Settled s.now i }
{
    (0xF0 <= s[i]) | (0xE0 <= s[i + 1]) | (0xC0 <= s[i + 2])
}

// The end of the last whole sequence between i + 3 and j + 3, where windows were passed.
fn last_end(s: &[u8], i: usize, j: usize) -> usize
    requires { Settled s.now i × Windows s.now i j }
    ensures { Passed s.now (i + 3) result }
{
    let mut k = j;
    while i < k {
        if !goes_on(s, k) {
            return k + 3;
        }
        k -= 1;
    }
    i + 3
}

// Past whole sequences from a place on, by vectors; none where few bytes are left or the next is below 80 hex.
fn past_run(s: &[u8], from: usize) -> usize
    requires { from ≤ length s.now }
    ensures { Passed s.now from result }
{
    if s.len() - from < 16 {
        return from;
    }
    if from < 3 {
        return from;
    }
    if s[from] < 0x80 {
        return from;
    }
    let i = from - 3;
    // never so after a whole sequence, but then no caller has to say that one stands there
    if goes_on(s, i) {
        return from;
    }
    last_end(s, i, past_windows(s, past_windows(s, i, 64), 16))
}

// Past the sequence at i and the run that it begins; 0 where no whole sequence stands there.
fn past_sequences(s: &[u8], i: usize) -> usize
    requires { i < length s.now }
    ensures { Stepped (utf8_of (drop i s.now)) s.now i result }
{
    if s[i] < 0x80 {
        return past_ascii(s, i + 1);
    }
    let next = past_several(s, i);
    if next == 0 {
        return 0;
    }
    past_run(s, next)
}

// Whether the bytes are UTF-8.
pub fn valid(s: &[u8]) -> bool
    ensures { result ≡ utf8_of s.now }
{
    let mut i = 0;
    while i < s.len() {
        let next = past_sequences(s, i);
        if next == 0 {
            return false;
        }
        i = next;
    }
    true
}
