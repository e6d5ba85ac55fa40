// An order of byte strings: the shorter one is less, and of two of one length the one that spells the smaller number.
#![tactic(auto)]

ghost use Rattle.std.specs.Prelude.{◌+◌, ◌≤◌, ◌≡◌, length};
ghost use Rattle.wire.specs.Wire.{le_at};
ghost use Rattle.order.specs.Value.{Compared, value_of};

use std::cmp::Ordering;

// How the numbers of the first n bytes compare, the last byte first.
fn compare_bytes(x: &[u8], y: &[u8], n: usize) -> Ordering
    requires { (n ≤ length x.now) × (n ≤ length y.now) }
    ensures { Compared result (le_at n x.now 0) (le_at n y.now 0) }
{
    for k in (0..n).rev() {
        let a = wire::u8_at(x, k);
        let b = wire::u8_at(y, k);
        if a != b {
            return a.cmp(&b);
        }
    }
    Ordering::Equal
}

// The eight bytes at an offset. Of a part of eight bytes the compiler knows that they are there, so this is one load.
fn word(x: &[u8], at: usize) -> u64
    requires { at + 8 ≤ length x.now }
    ensures { result ≡ le_at 8 x.now at }
{
    let e = at + 8;
    wire::u64_at(&x[at..e], 0)
}

// The same as compare_bytes, eight bytes at a time.
fn compare_words(x: &[u8], y: &[u8], n: usize) -> Ordering
    requires { (n ≤ length x.now) × (n ≤ length y.now) }
    ensures { Compared result (le_at n x.now 0) (le_at n y.now 0) }
{
    let mut k = n;
    while 8 <= k {
        k -= 8;
        let a = word(x, k);
        let b = word(y, k);
        if a != b {
            return a.cmp(&b);
        }
    }
    compare_bytes(x, y, k)
}

// How two byte strings compare.
pub fn compare(x: &[u8], y: &[u8]) -> Ordering
    ensures { Compared result (value_of x.now) (value_of y.now) }
{
    let n = x.len();
    let m = y.len();
    if n != m {
        return n.cmp(&m);
    }
    compare_words(x, y, n)
}
