// A file, opened and recovered, whole and cut at each byte; its parts.
use crate::print;
use parts::Epoch;
use rows::Row;
use verdict::Refusal;

// With so many bytes of the table lent.
pub fn open_in(f: &[u8], table: &mut [u8], room: usize) {
    let n = test_text::reach(&*table, 0, room);
    let lent = &mut table[..n];
    print::with_rows(reader::open(f, lent), &*lent);
}

pub fn recover_in(f: &[u8], table: &mut [u8], room: usize) {
    let n = test_text::reach(&*table, 0, room);
    let lent = &mut table[..n];
    print::with_rows(recovery::recover(f, lent), &*lent);
}

// Both answers on a line, without rows.
pub fn glance(f: &[u8], table: &mut [u8]) {
    print::answer(reader::open(f, table));
    print::say(b" | ");
    print::answer(recovery::recover(f, table));
    print::end_line();
}

// The same behind an offset.
pub fn glance_at(at: usize, f: &[u8], table: &mut [u8]) {
    print::offset(at as u64);
    glance(f, table);
}

// The first k bytes, for every k up to the length.
pub fn cuts(f: &[u8], table: &mut [u8]) {
    for k in 0..=f.len() {
        glance_at(k, &f[..k], table);
    }
}

fn locate(f: &[u8], table: &mut [u8], i: u64) -> Result<Row, Refusal> {
    let log = reader::open(f, table)?;
    access::locate(&*table, log.blocks, i)
}

// The stored bytes of a block by its number, in a file that opens.
pub fn stored(f: &[u8], table: &mut [u8], i: u64) {
    print::part(locate(f, table, i).map(|row| access::stored(f, row)));
}

// The stored bytes of a block by a row that may be any.
pub fn stored_at(f: &[u8], offset: u64, size: u32) {
    let row = Row {
        start: Epoch(0),
        end: Epoch(0),
        offset,
        stored: size,
        number: 0,
    };
    print::bytes_line(access::stored(f, row));
}

pub fn dictionary(f: &[u8], table: &mut [u8]) {
    print::part(reader::open(f, table).map(|log| access::dictionary(f, log)));
}
