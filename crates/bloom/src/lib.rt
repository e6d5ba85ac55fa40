// A Bloom filter of byte strings: each that is added has its mark there, so one without its mark wasn't added.
#![tactic(auto)]

ghost use Rattle.std.specs.Prelude.{◌≡◌, ◌<◌};
ghost use Rattle.bloom.specs.Filter.{digest_of, slot_of, mark_of, added, marked, cleared};

// The sum of what the first and the last eight bytes spell, or all of fewer.
fn digest(x: &[u8]) -> u64
    ensures { result ≡ digest_of x.now }
{
    let n = x.len();
    if n < 8 {
        let v = wire::u64_at(x, 0) % 0x8000_0000_0000_0000;
        return v + v;
    }
    let b = n - 8;
    wire::u64_at(&x[0..8], 0) % 0x8000_0000_0000_0000
        + wire::u64_at(&x[b..n], 0) % 0x8000_0000_0000_0000
}

// Which element of a filter of so many has the mark of a digest, and the mark, one of 64 bits. By a prime number, so
// that all of the digest counts.
fn slot(d: u64, size: usize) -> usize
    requires { 0 < size }
    ensures { (result ≡ slot_of size d) × (result < size) }
{
    (d % 65521) as usize % size
}

fn mark_of(d: u64) -> u64
    ensures { result ≡ mark_of d }
{
    1u64 << (d % 65521 / 1024)
}

// Puts the mark of x.
pub fn add(filter: &mut [u64], x: &[u8])
    ensures { filter.new ≡ added filter.old x.now }
{
    let n = filter.len();
    if 0 < n {
        let d = digest(x);
        let k = slot(d, n);
        filter[k] = filter[k] | mark_of(d);
    }
}

// Whether the mark of x is there. A filter without elements tells nothing of any x.
pub fn has(filter: &[u64], x: &[u8]) -> bool
    ensures { result ≡ marked filter.now x.now }
{
    let n = filter.len();
    if n == 0 {
        return true;
    }
    let d = digest(x);
    let k = slot(d, n);
    let y = filter[k];
    y | mark_of(d) == y
}

// Takes all marks away.
pub fn clear(filter: &mut [u64])
    ensures { filter.new ≡ cleared filter.old }
{
    let n = filter.len();
    for i in 0..n {
        filter[i] = 0;
    }
}
