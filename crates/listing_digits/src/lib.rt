// Numbers and bytes as text. What lies past the end of the output isn't written.
#![tactic(auto)]

ghost use Rattle.std.specs.Prelude.{◌≡◌, [], ◌∷◌, ◌+◌, ◌≤◌, ◌<◌, length};
ghost use Rattle.wire.specs.Wire.{le, splice};
ghost use Rattle.listing_digits.specs.Digits.{decimal_of, magnitude_of, signed_of, hex_digit, hex_of, shown_in_text};
ghost use Rattle.listing_digits.specs.Digits.{shown_in_name, byte_of, byte_len, Put};
ghost use Rattle.listing_digits.specs.Inner.{pair_of, four_of};

// How many digits a number below ten thousand takes.
fn short_len(x: u64) -> usize
    requires { x < 10000 }
    ensures { result ≡ length (decimal_of x) }
{
    if x < 10 {
        return 1;
    }
    if x < 100 {
        return 2;
    }
    if x < 1000 {
        return 3;
    }
    4
}

// How many digits a number takes, four at a time.
pub fn decimal_len(n: u64) -> usize
    ensures { result ≡ length (decimal_of n) }
{
    let mut k: usize = 0;
    let mut x = n;
    while 10000 <= x {
        k += 4;
        x /= 10000;
    }
    k + short_len(x)
}

// A number below a hundred as two digits.
fn put_pair(out: &mut [u8], at: usize, v: u32)
    requires { (v < 100) × (at + 2 ≤ length out.old) }
    ensures { out.new ≡ splice out.old at (pair_of v) }
{
    out[at] = 0x30 + (v / 10) as u8;
    out[at + 1] = 0x30 + (v % 10) as u8;
}

// The four digits of a number below ten thousand, the first in the lowest byte: the hundreds beside the rest, and the
// tens of both at once.
fn four_digits(r: u32) -> u32
    requires { r < 10000 }
    ensures { le 4 result ≡ four_of r }
{
    let h = r / 100;
    let p = h + (r % 100) * 0x1_0000;
    let t = (p * 103 / 1024) & 0xF_000F;
    0x3030_3030 + p * 0x100 - t * 2559
}

fn put_four(out: &mut [u8], at: usize, r: u32)
    requires { (r < 10000) × (at + 4 ≤ length out.old) }
    ensures { out.new ≡ splice out.old at (four_of r) }
{
    let w = four_digits(r);
    out[at] = (w % 0x100) as u8;
    out[at + 1] = (w / 0x100 % 0x100) as u8;
    out[at + 2] = (w / 0x1_0000 % 0x100) as u8;
    out[at + 3] = (w / 0x100_0000 % 0x100) as u8;
}

// A number below ten thousand.
fn put_short(out: &mut [u8], at: usize, n: u32)
    requires { (n < 10000) × (at + length (decimal_of n) ≤ length out.old) }
    ensures { out.new ≡ splice out.old at (decimal_of n) }
{
    if n < 10 {
        out[at] = 0x30 + n as u8;
        return;
    }
    if n < 100 {
        put_pair(out, at, n);
        return;
    }
    if n < 1000 {
        out[at] = 0x30 + (n / 100) as u8;
        put_pair(out, at + 1, n % 100);
        return;
    }
    put_four(out, at, n);
}

// A number that ends where it is said to, from its last digit on, four at a time.
fn put_digits(out: &mut [u8], at: usize, end: usize, n: u64)
    requires { (at + length (decimal_of n) ≡ end) × (end ≤ length out.old) }
    ensures { out.new ≡ splice out.old at (decimal_of n) }
{
    let mut i = end;
    let mut x = n;
    while 10000 <= x {
        put_four(out, i - 4, (x % 10000) as u32);
        i -= 4;
        x /= 10000;
    }
    put_short(out, at, x as u32);
}

// Puts a number if it fits wholly, and says how many bytes it took: 0 where it doesn't fit.
pub fn put_fitting(out: &mut [u8], at: usize, n: u64) -> usize
    ensures { Put (decimal_of n) out.old at result out.new }
{
    let k = decimal_len(n);
    if out.len() < at {
        return 0;
    }
    if out.len() - at < k {
        return 0;
    }
    put_digits(out, at, at + k, n);
    k
}

// As much of a number as there is room for.
pub fn put_decimal(out: &mut [u8], at: usize, n: u64)
    ensures { out.new ≡ splice out.old at (decimal_of n) }
{
    let mut digits = [0u8; 20];
    let k = put_fitting(&mut digits, 0, n);
    wire::copy_at(out, at, &digits[..k]);
}

// A number without its sign.
fn magnitude(z: i64) -> u64
    ensures { result ≡ magnitude_of z }
{
    if z < 0 {
        return (-1 - z) as u64 + 1;
    }
    z as u64
}

// How many characters a whole number takes.
pub fn signed_len(z: i64) -> usize
    ensures { result ≡ length (signed_of z) }
{
    let n = decimal_len(magnitude(z));
    if z < 0 {
        return n + 1;
    }
    n
}

// A number behind a `-`.
fn put_negative(out: &mut [u8], at: usize, n: u64)
    ensures { out.new ≡ splice out.old at (0x2D ∷ decimal_of n) }
{
    if at < out.len() {
        wire::put_u8(out, at, 0x2D);
        put_decimal(out, at + 1, n);
    }
}

pub fn put_signed(out: &mut [u8], at: usize, z: i64)
    ensures { out.new ≡ splice out.old at (signed_of z) }
{
    if z < 0 {
        put_negative(out, at, magnitude(z));
        return;
    }
    put_decimal(out, at, magnitude(z));
}

fn hex_digit(d: u8) -> u8
    requires { d < 16 }
    ensures { result ≡ hex_digit d }
{
    if d < 10 { 0x30 + d } else { 0x37 + d }
}

// One byte, so far behind an offset.
fn put_one(out: &mut [u8], at: usize, i: usize, b: u8)
    ensures { out.new ≡ splice out.old (at + i) (b ∷ []) }
{
    if at < out.len() {
        if i < out.len() - at {
            out[at + i] = b;
        }
    }
}

// So many hex digits of a number, the lowest last.
pub fn put_hex(out: &mut [u8], at: usize, n: u64, width: usize)
    ensures { out.new ≡ splice out.old at (hex_of width n) }
{
    let mut i = width;
    let mut x = n;
    while 0 < i {
        i -= 1;
        put_one(out, at, i, hex_digit((x % 16) as u8));
        x /= 16;
    }
}

// Whether a byte of a text is shown as it is.
pub fn shown_in_text(b: u8) -> bool
    ensures { result ≡ shown_in_text b }
{
    if b < 0x20 {
        return false;
    }
    if 0x7E < b {
        return false;
    }
    if b == 0x22 {
        return false;
    }
    b != 0x5C
}

// Whether a byte of a name is shown as it is.
pub fn shown_in_name(b: u8) -> bool
    ensures { result ≡ shown_in_name b }
{
    if b == 0x20 {
        return false;
    }
    if b == 0x3D {
        return false;
    }
    shown_in_text(b)
}

// How many characters a byte takes.
pub fn byte_len(shown: bool) -> usize
    ensures { result ≡ byte_len shown }
{
    if shown { 1 } else { 4 }
}

fn wide32(x: u8) -> u32
    ensures { (result ≡ x) × (result < 256) }
{
    x as u32
}

pub fn put_byte(out: &mut [u8], at: usize, b: u8, shown: bool)
    ensures { out.new ≡ splice out.old at (byte_of shown b) }
{
    if shown {
        wire::copy_at(out, at, &[b]);
        return;
    }
    let high = wide32(hex_digit(b / 16));
    let low = wide32(hex_digit(b % 16));
    wire::put_u32(out, at, 0x785C + high * 0x1_0000 + low * 0x100_0000);
}
