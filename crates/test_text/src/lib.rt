// Text in a buffer, and words in a line.
#![tactic(auto)]

ghost use Rattle.std.specs.Prelude.{◌≡◌, ◌+◌, ◌<◌, ◌≤◌, min, length};
ghost use Rattle.io.specs.Counts.{IsPrefixLen};

use verdict::Refusal;

// How far a text of n bytes from a place on reaches in a buffer.
pub fn reach(out: &[u8], at: usize, n: usize) -> usize
    ensures { IsPrefixLen result out.now }
{
    at.saturating_add(n).min(out.len())
}

// Puts s into a buffer from a place on, as much as fits, and says where it ends: here and below a text that doesn't fit
// is cut off.
pub fn with(out: &mut [u8], at: usize, s: &[u8]) -> usize
    ensures { IsPrefixLen result out.new }
{
    wire::copy_at(out, at, s);
    reach(&*out, at, s.len())
}

pub fn with_decimal(out: &mut [u8], at: usize, n: u64) -> usize
    ensures { IsPrefixLen result out.new }
{
    let mut digits = [0u8; 20];
    let k = io::decimal(n, &mut digits);
    with(out, at, &digits[..k])
}

pub fn with_hex(out: &mut [u8], at: usize, n: u64, width: usize) -> usize
    ensures { IsPrefixLen result out.new }
{
    let mut digits = [0u8; 16];
    let k = io::hex(n, width, &mut digits);
    with(out, at, &digits[..k])
}

// The bytes of s, two hexadecimal digits each.
pub fn with_bytes(out: &mut [u8], at: usize, s: &[u8]) -> usize
    ensures { IsPrefixLen result out.new }
{
    let mut end = reach(&*out, at, 0);
    for b in s {
        end = with_hex(out, end, u64::from(*b), 2);
    }
    end
}

// A refusal: its number and its place.
pub fn with_refusal(out: &mut [u8], r: Refusal) -> usize
    ensures { IsPrefixLen result out.new }
{
    let a = with(out, 0, b"refused ");
    let b = with_decimal(out, a, u64::from(r.number));
    let c = with(out, b, b" ");
    with_decimal(out, c, r.place)
}

// The value of a hexadecimal digit, and 0 of anything else.
fn digit(c: u8) -> u8
    ensures { result < 16 }
{
    match c {
        b'0'..=b'9' => c - b'0',
        b'a'..=b'f' => c - b'a' + 10,
        b'A'..=b'F' => c - b'A' + 10,
        _ => 0,
    }
}

// Puts the bytes that s spells at the start of out, as many as fit, and says how many.
pub fn unhex(s: &[u8], out: &mut [u8]) -> usize
    ensures { IsPrefixLen result out.new }
{
    let n = (s.len() / 2).min(out.len());
    for (b, pair) in out.iter_mut().zip(s.chunks_exact(2)) {
        *b = digit(pair[0]) * 16 + digit(pair[1]);
    }
    n
}

// The word behind so many spaces; empty where there is none.
pub fn word(line: &[u8], i: usize) -> &[u8] {
    line.split(|b| *b == b' ').nth(i).unwrap_or(&[])
}

// A number with one decimal digit more: one of 64 bits.
fn with_digit(n: u64, d: u64) -> u64 {
    if 1_844_674_407_370_955_161 < n {
        return n;
    }
    (n * 10).wrapping_add(d)
}

// The number that s spells in decimal digits.
pub fn number(s: &[u8]) -> u64 {
    s.iter().fold(0, |n, c| with_digit(n, u64::from(digit(*c))))
}

// The number that the word behind so many spaces spells.
pub fn number_at(line: &[u8], i: usize) -> u64 {
    number(word(line, i))
}

pub fn size_at(line: &[u8], i: usize) -> usize {
    number_at(line, i) as usize
}

// Whether a line isn't empty and doesn't start with '#'.
pub fn is_command(line: &[u8]) -> bool {
    !matches!(line, [] | [b'#', ..])
}

// Where b stands first from a place on, or the length.
pub fn find(s: &[u8], from: usize, b: u8) -> usize
    ensures { (result ≤ length s.now) × (min from (length s.now) ≤ result) }
{
    for i in from..s.len() {
        if s[i] == b {
            return i;
        }
    }
    s.len()
}

// The place behind one, and no further than the length.
pub fn past(s: &[u8], at: usize) -> usize
    ensures { result ≡ min (at + 1) (length s.now) }
{
    if at < s.len() { at + 1 } else { s.len() }
}

// The number of a name among the first 32 of names with a space between them, or 32.
pub fn place(names: &[u8], name: &[u8]) -> usize {
    let mut i = 0;
    while i < 32 {
        if word(names, i) == name {
            return i;
        }
        i += 1;
    }
    i
}
