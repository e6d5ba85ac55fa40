// The writer's calls, with the bytes that are lent to it, and the file that its stores are put in.
use crate::answers;
use cursor::{Cursor, Field, Value};
use parts::Epoch;
use repair::Kept;
use test_views::print;
use verdict::Refusal;
use writer::Writer;

// What is kept from line to line, beside the lent bytes: the writer, and the length of the file.
#[derive(Clone, Copy)]
pub struct Draft {
    pub writer: Writer,
    pub len: usize,
}

pub fn at_first() -> Draft {
    let writer = Writer::new();
    Draft { writer, len: 0 }
}

fn with_writer(s: Draft, writer: Writer) -> Draft {
    Draft { writer, len: s.len }
}

pub fn with_len(s: Draft, len: usize) -> Draft {
    let writer = s.writer;
    Draft { writer, len }
}

// Puts stores in a file, the header that they start with, if any, at its start and the rest at its end; says where it
// ends then.
fn put_stores(file: &mut [u8], end: usize, header: usize, stores: &[u8]) -> usize {
    let first = wire::part_at(stores, 0, header);
    let rest = wire::part_at(stores, header, stores.len());
    wire::copy_at(file, 0, first);
    if end < header {
        return test_text::with(file, header, rest);
    }
    test_text::with(file, end, rest)
}

// The draft behind a call whose stores start with a header of so many bytes.
pub fn behind(
    s: Draft,
    r: Result<(Writer, u64), Refusal>,
    header: usize,
    out: &[u8],
    file: &mut [u8],
) -> Draft {
    match r {
        Err(_) => s,
        Ok((w, size)) => {
            let stores = wire::part_at(out, 0, size as usize);
            let len = put_stores(file, s.len, header, stores);
            Draft { writer: w, len }
        }
    }
}

pub fn begin(w: Writer, room: usize, out: &mut [u8]) -> Result<(Writer, u64), Refusal> {
    let n = test_text::reach(&*out, 0, room);
    w.begin(&mut out[..n])
}

fn behind_name(s: Draft, r: Result<(Writer, u32), Refusal>) -> Draft {
    match r {
        Ok((w, _)) => with_writer(s, w),
        Err(_) => s,
    }
}

fn add_name(s: Draft, room: usize, name: &[u8], dictionary: &mut [u8]) -> Draft {
    let w = s.writer;
    let n = test_text::reach(&*dictionary, 0, room);
    let r = writer_names::add_name(w, &mut dictionary[..n], name);
    answers::named(r);
    behind_name(s, r)
}

// A name of up to 2,048 bytes, in hexadecimal.
pub fn name(s: Draft, room: usize, hex: &[u8], dictionary: &mut [u8]) -> Draft {
    let mut bytes = io::buffer();
    let n = test_text::unhex(hex, &mut bytes);
    add_name(s, room, &bytes[..n], dictionary)
}

// A name of so many letters, up to 65,536.
pub fn long_name(s: Draft, room: usize, len: usize, dictionary: &mut [u8]) -> Draft {
    let letters = [b'a'; 65536];
    add_name(s, room, wire::part_at(&letters, 0, len), dictionary)
}

fn behind_entry(s: Draft, r: Result<Writer, Refusal>) -> Draft {
    match r {
        Ok(w) => with_writer(s, w),
        Err(_) => s,
    }
}

fn add_entry(
    s: Draft,
    room: usize,
    time: Epoch,
    fields: &[u8],
    text: &[u8],
    payload: &mut [u8],
) -> Draft {
    let w = s.writer;
    let n = test_text::reach(&*payload, 0, room);
    let r = writer_entries::add_entry(w, &mut payload[..n], time, fields, text);
    answers::entered(r);
    behind_entry(s, r)
}

// A record: the number of a name, a type, and the bits of a value or the place and the length of a text.
fn put_record(table: &mut [u8], i: u8, id: u16, kind: u8, bits: u64, len: u64) {
    let at = i as usize * 24;
    wire::put_u16(table, at, id);
    wire::put_u8(table, at + 2, kind);
    wire::put_u64(table, at + 8, bits);
    wire::put_u64(table, at + 16, len);
}

fn bit(b: bool) -> u64 {
    if b { 1 } else { 0 }
}

// The record of a field, which has these bits where it is a whole number.
fn put_field(table: &mut [u8], i: u8, f: Field, bits: u64) {
    let v = f.value;
    match v {
        Value::Text(p, n) => put_record(table, i, f.id, 0, p as u64, n as u64),
        Value::Whole(_) => put_record(table, i, f.id, 1, bits, 0),
        Value::Real(_, b) => put_record(table, i, f.id, 2, b, 0),
        Value::Truth(b) => put_record(table, i, f.id, 3, bit(b), 0),
        Value::Null => put_record(table, i, f.id, 4, 0, 0),
        Value::Json(p, n) => put_record(table, i, f.id, 5, p as u64, n as u64),
    }
}

// 255 nulls of name 0.
fn put_nulls(table: &mut [u8]) {
    for i in 0..255 {
        put_record(table, i, 0, 4, 0, 0);
    }
}

// The eight bytes before a place.
fn bits_before(s: &[u8], end: usize) -> u64 {
    if end < 8 {
        return 0;
    }
    wire::u64_at(s, end - 8)
}

// The fields behind a count, as many as can be read.
fn put_fields(table: &mut [u8], entry: &[u8]) {
    let mut at: usize = 1;
    let mut i: u8 = 0;
    while i < 255 {
        let c = Cursor { at };
        let step = c.field(entry, 65535);
        match step {
            Err(_) => {
                return;
            }
            Ok((f, next)) => {
                put_field(table, i, f, bits_before(entry, next.at));
                at = next.at;
                i += 1;
            }
        }
    }
}

// An entry's count and fields, in hexadecimal; they are lent as the text that its fields have their texts in.
pub fn entry(s: Draft, room: usize, time: u64, hex: &[u8], payload: &mut [u8]) -> Draft {
    let mut bytes = io::buffer();
    let n = test_text::unhex(hex, &mut bytes);
    let count = wire::u8_at(&bytes[..n], 0) as usize;
    let mut table = io::large_buffer();
    put_nulls(&mut table);
    put_fields(&mut table, &bytes[..n]);
    let fields = wire::part_at(&table, 0, count * 24);
    add_entry(s, room, Epoch(time), fields, &bytes[..n], payload)
}

// An entry of so many fields, up to 2,730.
pub fn entry_count(s: Draft, room: usize, time: u64, count: usize, payload: &mut [u8]) -> Draft {
    let mut table = io::large_buffer();
    put_nulls(&mut table);
    let fields = wire::part_at(&table, 0, test_text::reach(&table, 0, count) * 24);
    add_entry(s, room, Epoch(time), fields, b"", payload)
}

// An entry of one field, a string at a place in a text.
pub fn entry_part(
    s: Draft,
    room: usize,
    time: u64,
    field: Field,
    hex: &[u8],
    payload: &mut [u8],
) -> Draft {
    let mut bytes = io::buffer();
    let n = test_text::unhex(hex, &mut bytes);
    let mut table = io::buffer();
    put_field(&mut table, 0, field, 0);
    let fields = wire::part_at(&table, 0, 24);
    add_entry(s, room, Epoch(time), fields, &bytes[..n], payload)
}

// An entry of the whole number 1 and a text of a type, both of name 0.
pub fn entry_text(
    s: Draft,
    room: usize,
    time: u64,
    kind: u8,
    hex: &[u8],
    payload: &mut [u8],
) -> Draft {
    let mut bytes = io::buffer();
    let n = test_text::unhex(hex, &mut bytes);
    let mut table = io::buffer();
    put_record(&mut table, 0, 0, 1, 1, 0);
    put_record(&mut table, 1, 0, kind, 0, n as u64);
    let fields = wire::part_at(&table, 0, 48);
    add_entry(s, room, Epoch(time), fields, &bytes[..n], payload)
}

// What a block takes beside its bytes.
#[derive(Clone, Copy)]
pub struct Adding {
    pub rows: usize,
    pub room: usize,
    pub start: Epoch,
    pub names: u32,
}

fn add_block(
    w: Writer,
    a: Adding,
    plain: &[u8],
    stored: &[u8],
    table: &mut [u8],
    out: &mut [u8],
) -> Result<(Writer, u64), Refusal> {
    let start = a.start;
    let n = test_text::reach(&*table, 0, a.rows);
    let k = test_text::reach(&*out, 0, a.room);
    writer_blocks::add_block(
        w,
        &mut table[..n],
        &mut out[..k],
        start,
        plain,
        stored,
        a.names,
    )
}

// A block with plain and stored bytes in hexadecimal.
pub fn block(
    w: Writer,
    a: Adding,
    plain: &[u8],
    stored: &[u8],
    table: &mut [u8],
    out: &mut [u8],
) -> Result<(Writer, u64), Refusal> {
    let mut p = io::buffer();
    let n = test_text::unhex(plain, &mut p);
    let mut q = io::buffer();
    let k = test_text::unhex(stored, &mut q);
    add_block(w, a, &p[..n], &q[..k], table, out)
}

// A block of one entry of no fields, as early as may be, with all that is lent.
fn small_block(w: Writer, table: &mut [u8], out: &mut [u8]) -> Result<(Writer, u64), Refusal> {
    let end = w.end;
    writer_blocks::add_block(w, table, out, end, b"\x00\x00", b"\x00", w.given)
}

// One small block, whose answer is printed or not.
fn add_small(s: Draft, shown: bool, table: &mut [u8], out: &mut [u8], file: &mut [u8]) -> Draft {
    let w = s.writer;
    let r = small_block(w, table, out);
    if shown {
        answers::stored(r, &*out);
    }
    behind(s, r, 0, &*out, file)
}

// So many small blocks, of which only the last one's answer is printed.
pub fn blocks(s: Draft, n: usize, table: &mut [u8], out: &mut [u8], file: &mut [u8]) -> Draft {
    let mut next = s;
    let mut left = n;
    while 0 < left {
        left -= 1;
        next = add_small(next, left == 0, table, out, file);
    }
    next
}

fn close_with(
    w: Writer,
    room: usize,
    plain: &[u8],
    stored: &[u8],
    table: &[u8],
    out: &mut [u8],
) -> Result<(Writer, u64), Refusal> {
    let n = test_text::reach(&*out, 0, room);
    writer_close::close(w, table, &mut out[..n], plain, stored)
}

// Closing with a plain and a stored dictionary in hexadecimal.
pub fn close(
    w: Writer,
    room: usize,
    plain: &[u8],
    stored: &[u8],
    table: &[u8],
    out: &mut [u8],
) -> Result<(Writer, u64), Refusal> {
    let mut p = io::buffer();
    let n = test_text::unhex(plain, &mut p);
    let mut q = io::buffer();
    let k = test_text::unhex(stored, &mut q);
    close_with(w, room, &p[..n], &q[..k], table, out)
}

// The writer's state, and the CRC-32 of each of the lent buffers.
pub fn state(s: Draft, dictionary: &[u8], payload: &[u8], table: &[u8], out: &[u8]) {
    let w = s.writer;
    answers::state(w);
    print::sum(dictionary);
    print::sum(payload);
    print::sum(table);
    print::sum(out);
    print::end_line();
}

// Repair of a file with a stored dictionary in hexadecimal.
pub fn mend(f: &[u8], room: usize, hex: &[u8], out: &mut [u8]) -> Result<Kept, Refusal> {
    let mut bytes = io::buffer();
    let n = test_text::unhex(hex, &mut bytes);
    let k = test_text::reach(&*out, 0, room);
    repair::repair(f, &bytes[..n], &mut out[..k])
}

// The draft behind a repair: the finished file is the file then.
pub fn behind_repair(s: Draft, r: Result<Kept, Refusal>, out: &[u8], file: &mut [u8]) -> Draft {
    match r {
        Err(_) => s,
        Ok(k) => {
            let n = test_text::with(file, 0, wire::part_at(out, 0, k.length as usize));
            with_len(s, n)
        }
    }
}
