// CRC-32 of ITU-T V.42, without tables: a long input is folded onto its last 4,032 bytes, through a ring of the last
// 4,018 that were taken out.
#![tactic(auto)]

ghost use Rattle.std.specs.Prelude.{◌≡◌, ◌+◌, ◌-◌, ◌≤◌, min, length, drop};
ghost use Rattle.crc32_fold.specs.Fold.{initial, folded, merged, reduced};
ghost use Rattle.crc32.specs.Crc.{crc32};
ghost use Rattle.crc32.specs.Far.{far};
ghost use Rattle.crc32.specs.Inner.{from, added};

// How far a byte that is taken out reaches, and how many are left in the end.
const REACH: usize = 4018;

const LEFT: usize = 4032;

fn least(a: usize, b: usize) -> usize
    ensures { result ≡ min a b }
{
    if a < b { a } else { b }
}

fn most(a: usize, b: usize) -> usize
    ensures { result ≡ a + (b - a) }
{
    if a < b { b } else { a }
}

// The ring before the first byte is taken out, to be read from a place on: the register's four bytes, all bits set.
fn first_ring(at: usize) -> [u8; REACH]
    requires { at ≤ 4018 }
    ensures { (length result ≡ 4018) × (from at result ≡ initial 4018 0xFFFFFFFF) }
{
    let mut ring = [0u8; REACH];
    ring[at % REACH] = 255;
    ring[(at + 1) % REACH] = 255;
    ring[(at + 2) % REACH] = 255;
    ring[(at + 3) % REACH] = 255;
    ring
}

// Takes bytes out, from an offset on: those that go to the ring's places from i on, up to the end of its first, second
// or third part. In the first both other places that a byte is made from stand behind its own, in the second one does,
// and in the third none.
fn fold_first(ring: &mut [u8], i: usize, s: &[u8], at: usize)
    requires { (length ring.old ≡ 4018) × (at + (1927 - i) ≤ length s.now) }
    ensures { let w = ring.new in
        let all = folded far (1927 - i) (from i ring.old) (drop at s.now) in
        (length w ≡ 4018) × (from (i + (1927 - i)) w ≡ all) }
{
    for k in i..1927 {
        ring[k] = s[at + (k - i)] ^ (ring[k] ^ (ring[k + 1837] ^ ring[k + 2091]));
    }
}

fn fold_second(ring: &mut [u8], i: usize, s: &[u8], at: usize)
    requires { (length ring.old ≡ 4018) × (1927 ≤ i) × (at + (2181 - i) ≤ length s.now) }
    ensures { let w = ring.new in
        let all = folded far (2181 - i) (from i ring.old) (drop at s.now) in
        (length w ≡ 4018) × (from (i + (2181 - i)) w ≡ all) }
{
    for k in i..2181 {
        ring[k] = s[at + (k - i)] ^ (ring[k] ^ (ring[k + 1837] ^ ring[k - 1927]));
    }
}

fn fold_third(ring: &mut [u8], i: usize, s: &[u8], at: usize)
    requires { (length ring.old ≡ 4018) × (2181 ≤ i) × (at + (4018 - i) ≤ length s.now) }
    ensures { let w = ring.new in
        let all = folded far (4018 - i) (from i ring.old) (drop at s.now) in
        (length w ≡ 4018) × (from (i + (4018 - i)) w ≡ all) }
{
    for k in i..4018 {
        ring[k] = s[at + (k - i)] ^ (ring[k] ^ (ring[k - 2181] ^ ring[k - 1927]));
    }
}

// Takes bytes out up to the ring's end.
fn fold_round(ring: &mut [u8], i: usize, s: &[u8], at: usize)
    requires { (length ring.old ≡ 4018) × (i ≤ 4018) × (at + (4018 - i) ≤ length s.now) }
    ensures { let w = ring.new in
        (length w ≡ 4018) × (w ≡ folded far (4018 - i) (from i ring.old) (drop at s.now)) }
{
    let second = most(i, 1927);
    let third = most(i, 2181);
    fold_first(ring, i, s, at);
    fold_second(ring, second, s, at + (second - i));
    fold_third(ring, third, s, at + (third - i));
}

// Adds bytes to those of an output, as far as both go.
fn add(out: &mut [u8], s: &[u8])
    ensures { out.new ≡ added out.old s.now }
{
    let n = least(out.len(), s.len());
    for i in 0..n {
        out[i] = out[i] ^ s[i];
    }
}

// The bytes left, from an offset on, with what those taken out leave at them.
fn merge(ring: &[u8], s: &[u8], at: usize) -> [u8; LEFT]
    requires { (length ring.now ≡ 4018) × (at + 4032 ≤ length s.now) }
    ensures { result ≡ merged far 4032 ring.now (drop at s.now) }
{
    let mut out = [0u8; LEFT];
    wire::copy_at(&mut out, 0, &s[at..at + LEFT]);
    add(&mut out, &ring[2091..]);
    add(&mut out, &ring[1837..]);
    add(&mut out, ring);
    out
}

// The last bytes of an input, with the first register and all other bytes folded onto them. The first round is such
// that the others are whole.
fn reduce(s: &[u8]) -> [u8; LEFT]
    requires { 4032 ≤ length s.now }
    ensures { result ≡ reduced far 4018 4032 0xFFFFFFFF s.now }
{
    let end = s.len() - LEFT;
    let first = end % REACH;
    let mut ring = first_ring(REACH - first);
    fold_round(&mut ring, REACH - first, s, 0);
    let mut at = first;
    while at < end {
        fold_round(&mut ring, 0, s, at);
        at += REACH;
    }
    merge(&ring, s, end)
}

// The checksum. Through the ring it's faster from 28 KiB on: below, what the ring leaves costs more than it saves.
pub fn checksum(s: &[u8]) -> u32
    ensures { result ≡ crc32 s.now }
{
    if s.len() < 28672 {
        return crc32_fold::after(0xFFFF_FFFF, s) ^ 0xFFFF_FFFF;
    }
    let rest = reduce(s);
    crc32_fold::after(0, &rest) ^ 0xFFFF_FFFF
}
