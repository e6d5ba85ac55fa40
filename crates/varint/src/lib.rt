// Varints in a slice. Every position is taken: past the end there is nothing to read, and nothing is written.
#![tactic(auto)]

ghost use Rattle.std.specs.Prelude.{◌≡◌, ◌+◌, ◌<◌, length, get_or};
ghost use Rattle.wire.specs.Wire.{splice};
ghost use Rattle.varint.specs.Varint.{encode};
ghost use Rattle.varint.specs.Answer.{decoded_at};

// Why nothing stands at a position: the bytes end too early, or they make more than ten bytes or 64 bits.
#[derive(Clone, Copy, Debug, PartialEq, Eq)]
pub enum DecodeError {
    Cut,
    Malformed,
}

// The value at a position, and the position behind it. Most varints are one byte, which is answered without a loop.
pub fn decode_at(s: &[u8], at: usize) -> Result<(u64, usize), DecodeError>
    ensures { result ≡ decoded_at s.now at }
{
    if s.len() <= at {
        return Err(DecodeError::Cut);
    }
    let first = u64::from(s[at]);
    if first < 128 {
        return Ok((first, at + 1));
    }
    decode_long(s, at, first - 128)
}

// The varint at a position whose first byte isn't its last and has `low` in its seven low bits.
fn decode_long(s: &[u8], at: usize, low: u64) -> Result<(u64, usize), DecodeError>
    requires { (at < length s.now) × (128 + low ≡ get_or s.now at 0) }
    ensures { result ≡ decoded_at s.now at }
{
    let mut value = low;
    let mut scale: u64 = 128;
    let mut p = at + 1;
    for _ in 0..8u32 {
        if s.len() <= p {
            return Err(DecodeError::Cut);
        }
        let b = u64::from(s[p]);
        p += 1;
        if b < 128 {
            return Ok((value + b * scale, p));
        }
        value += (b - 128) * scale;
        scale *= 128;
    }
    if s.len() <= p {
        return Err(DecodeError::Cut);
    }
    let tenth = u64::from(s[p]);
    if 1 < tenth {
        return Err(DecodeError::Malformed);
    }
    Ok((value + tenth * scale, p + 1))
}

// How many bytes the shortest form takes: the bits below the leading zeros, divided by seven and rounded up. Zero has
// no bits and takes a byte; it is answered with the many values that need no division.
pub fn encoded_len(v: u64) -> usize
    ensures { result ≡ length (encode v) }
{
    let bits = 64 - v.leading_zeros() as usize;
    if bits <= 7 {
        return 1;
    }
    // One division; `div_ceil` takes a remainder beside it.
    (bits + 6) / 7
}

// Writes the shortest form from a position on.
pub fn encode_at(out: &mut [u8], at: usize, v: u64)
    ensures { out.new ≡ splice out.old at (encode v) }
{
    let mut x = v;
    let mut p = at;
    while 128 <= x {
        if out.len() <= p {
            return;
        }
        out[p] = (x % 128 + 128) as u8;
        x /= 128;
        p += 1;
    }
    if p < out.len() {
        out[p] = x as u8;
    }
}
