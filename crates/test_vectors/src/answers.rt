// What the library answers to an input, as text in a buffer: each function says how long the text is.
ghost use Rattle.std.specs.Prelude.{◌≡◌, ◌+◌, ◌*◌, ◌<◌, ◌≤◌};
ghost use Rattle.io.specs.Counts.{IsPrefixLen};
ghost use Rattle.lookup.specs.Lookup.{lookup_of, name_in};

use crate::held;
use parts::Epoch;
use recovery::Report;
use varint::DecodeError;
use verdict::Refusal;

pub fn crc32(s: &[u8], out: &mut [u8]) -> usize
    ensures { IsPrefixLen result out.new }
{
    test_text::with_hex(out, 0, u64::from(crc32::checksum(s)), 8)
}

pub fn utf8(s: &[u8], out: &mut [u8]) -> usize
    ensures { IsPrefixLen result out.new }
{
    test_text::with(out, 0, if utf8::valid(s) { b"valid" } else { b"invalid" })
}

fn shortest(value: u64, form: &mut [u8]) -> usize
    ensures { IsPrefixLen result form.new }
{
    varint::encode_at(form, 0, value);
    test_text::reach(&*form, 0, varint::encoded_len(value))
}

// A varint's value, the position behind it, and the value's shortest form.
fn spelled(value: u64, next: usize, out: &mut [u8]) -> usize
    ensures { IsPrefixLen result out.new }
{
    let a = test_text::with_decimal(out, 0, value);
    let b = test_text::with(out, a, b" ");
    let c = test_text::with_decimal(out, b, next as u64);
    let d = test_text::with(out, c, b" ");
    let mut form = [0u8; 10];
    let n = shortest(value, &mut form);
    test_text::with_bytes(out, d, &form[..n])
}

pub fn varint(s: &[u8], out: &mut [u8]) -> usize
    ensures { IsPrefixLen result out.new }
{
    let d = varint::decode_at(s, 0);
    match d {
        Ok((value, next)) => spelled(value, next, out),
        Err(DecodeError::Cut) => test_text::with(out, 0, b"cut"),
        Err(DecodeError::Malformed) => test_text::with(out, 0, b"malformed"),
    }
}

fn labelled(l: Result<bool, Refusal>, out: &mut [u8]) -> usize
    ensures { IsPrefixLen result out.new }
{
    match l {
        Ok(true) => test_text::with(out, 0, b"shortened"),
        Ok(false) => test_text::with(out, 0, b"written"),
        Err(r) => test_text::with_refusal(out, r),
    }
}

// What the label of a name is, and the panel that was lent for it afterwards.
fn label_in(s: &[u8], panel: &mut [u8], out: &mut [u8]) -> usize
    ensures { IsPrefixLen result out.new }
{
    let l = label::label(s, panel);
    let a = labelled(l, out);
    let b = test_text::with(out, a, b" ");
    test_text::with_bytes(out, b, &*panel)
}

pub fn label(s: &[u8], out: &mut [u8]) -> usize
    ensures { IsPrefixLen result out.new }
{
    label_in(s, &mut [0xAA; 20], out)
}

pub fn panel(s: &[u8], out: &mut [u8]) -> usize
    ensures { IsPrefixLen result out.new }
{
    label_in(s, &mut [0xAA; 15], out)
}

pub fn names(s: &[u8], out: &mut [u8]) -> usize
    ensures { IsPrefixLen result out.new }
{
    let c = names::check(s);
    match c {
        Ok(n) => test_text::with_decimal(out, 0, u64::from(n)),
        Err(r) => test_text::with_refusal(out, r),
    }
}

// How long a dictionary of n names is that is made, and where name n stands in a longer one.
fn made_len(n: u32) -> usize
    ensures { result ≤ 4 + 7 * 4294967296 }
{
    4 + n as usize * 7
}

// Name i of a dictionary that is made: its id, its length and three letters.
fn put_name(dictionary: &mut [u8], at: usize, i: u32, letters: u32)
    requires { at ≤ 4 + 7 * 4294967296 }
{
    wire::put_u16(dictionary, at, (i % 0x1_0000) as u16);
    wire::put_u16(dictionary, at + 2, 3);
    wire::put_u8(dictionary, at + 4, (48 + letters % 41) as u8);
    wire::put_u8(dictionary, at + 5, (48 + letters / 41 % 41) as u8);
    wire::put_u8(dictionary, at + 6, (48 + letters / 1681 % 41) as u8);
}

// The letters of name i are those of i, which differ below 68,921; kind 1 gives the last name those of the first.
fn letters(i: u32, n: u32, kind: u8) -> u32
    requires { i < n }
{
    if kind == 1 && i + 1 == n { 0 } else { i }
}

fn fill(dictionary: &mut [u8], n: u32, kind: u8) {
    for i in 0..n {
        put_name(dictionary, made_len(i), i, letters(i, n, kind));
    }
}

pub fn many(s: &[u8], out: &mut [u8]) -> usize
    ensures { IsPrefixLen result out.new }
{
    let mut dictionary = [0u8; 458749];
    let n = wire::u32_at(s, 0);
    wire::put_u32(&mut dictionary, 0, n);
    fill(&mut dictionary, n, wire::u8_at(s, 4));
    names(wire::part_at(&dictionary, 0, made_len(n)), out)
}

// A name's place, its length and its bytes.
fn located(place: usize, name: &[u8], out: &mut [u8]) -> usize
    ensures { IsPrefixLen result out.new }
{
    let a = test_text::with_decimal(out, 0, place as u64);
    let b = test_text::with(out, a, b" ");
    let c = test_text::with_decimal(out, b, name.len() as u64);
    let d = test_text::with(out, c, b" ");
    test_text::with_bytes(out, d, name)
}

// A name's bytes, as `lookup::name` hands them back.
fn handed(dictionary: &[u8], id: u64) -> &[u8]
    ensures { result.now ≡ name_in (lookup_of dictionary.now id) dictionary.now }
{
    lookup::name(dictionary, id).unwrap_or(&[])
}

pub fn name(s: &[u8], out: &mut [u8]) -> usize
    ensures { IsPrefixLen result out.new }
{
    let id = wire::u64_at(s, 0);
    let dictionary = wire::part_at(s, 8, s.len());
    let l = lookup::locate(dictionary, id);
    match l {
        Ok(p) => located(p.place, handed(dictionary, id), out),
        Err(r) => test_text::with_refusal(out, r),
    }
}

pub fn number(s: &[u8], out: &mut [u8]) -> usize
    ensures { IsPrefixLen result out.new }
{
    let n = usize::from(wire::u8_at(s, 0));
    let dictionary = wire::part_at(s, 1 + n, s.len());
    let f = name_search::number_of(dictionary, wire::part_at(s, 1, n));
    match f {
        Ok(Some(i)) => test_text::with_decimal(out, 0, u64::from(i)),
        Ok(None) => test_text::with(out, 0, b"missing"),
        Err(r) => test_text::with_refusal(out, r),
    }
}

// How many numbers were chosen, and a list of four afterwards.
fn chosen(n: u32, numbers: &[u32], out: &mut [u8]) -> usize
    ensures { IsPrefixLen result out.new }
{
    let mut end = test_text::with_decimal(out, 0, u64::from(n));
    for i in numbers {
        end = test_text::with(out, end, b" ");
        end = test_text::with_decimal(out, end, u64::from(*i));
    }
    end
}

fn queried(q: Result<u32, Refusal>, numbers: &[u32], out: &mut [u8]) -> usize
    ensures { IsPrefixLen result out.new }
{
    match q {
        Ok(n) => chosen(n, numbers, out),
        Err(r) => test_text::with_refusal(out, r),
    }
}

pub fn query(s: &[u8], out: &mut [u8]) -> usize
    ensures { IsPrefixLen result out.new }
{
    let from = Epoch(wire::u64_at(s, 0));
    let to = Epoch(wire::u64_at(s, 8));
    let table = wire::part_at(s, 16, s.len());
    let mut numbers = [9u32; 4];
    let q = query::query(table, from, to, &mut numbers);
    queried(q, &numbers, out)
}

pub fn slices(s: &[u8], out: &mut [u8]) -> usize
    ensures { IsPrefixLen result out.new }
{
    let from = Epoch(wire::u64_at(s, 0));
    let to = Epoch(wire::u64_at(s, 8));
    let table = wire::part_at(s, 16, s.len());
    let mut numbers = [9u32; 4];
    let q = held::ask(table, from, to, &mut numbers);
    queried(q, &numbers, out)
}

pub fn entries(s: &[u8], out: &mut [u8]) -> usize
    ensures { IsPrefixLen result out.new }
{
    let start = Epoch(wire::u64_at(s, 0));
    let e = entries::check(wire::part_at(s, 12, s.len()), start, wire::u32_at(s, 8));
    match e {
        Ok((n, t)) => counted(n, t, out),
        Err(r) => test_text::with_refusal(out, r),
    }
}

// A number of entries, and the last one's time.
fn counted(n: u64, last: Epoch, out: &mut [u8]) -> usize
    ensures { IsPrefixLen result out.new }
{
    let a = test_text::with_decimal(out, 0, n);
    let b = test_text::with(out, a, b" ");
    test_text::with_decimal(out, b, last.0)
}

// How many blocks there are, and the end of the last.
fn found(r: Report, out: &mut [u8]) -> usize
    ensures { IsPrefixLen result out.new }
{
    let a = test_text::with_decimal(out, 0, u64::from(r.blocks));
    let b = test_text::with(out, a, b" ");
    let c = test_text::with_decimal(out, b, r.end);
    test_text::with(out, c, b" ")
}

// Then what stopped the scan, 0 at place 0 for a clean end, whether the dictionary is whole, and the lent table.
fn reported(r: Report, table: &[u8], out: &mut [u8]) -> usize
    ensures { IsPrefixLen result out.new }
{
    let (number, place) = r.stop.map_or_else(|w| (w.number, w.place), |()| (0, 0));
    let a = found(r, out);
    let b = test_text::with_decimal(out, a, u64::from(number));
    let c = test_text::with(out, b, b" ");
    let d = test_text::with_decimal(out, c, place);
    let e = test_text::with(out, d, if r.whole { b" whole " } else { b" none " });
    test_text::with_bytes(out, e, table)
}

pub fn recover(s: &[u8], out: &mut [u8]) -> usize
    ensures { IsPrefixLen result out.new }
{
    let mut table = [0xAAu8; 68];
    let r = recovery::recover(s, &mut table);
    match r {
        Ok(r) => reported(r, &table, out),
        Err(r) => test_text::with_refusal(out, r),
    }
}
