// What the library answers of a file, printed.
use blocks::Scanned;
use frame::Frame;
use parts::Epoch;
use recovery::Report;
use rows::Row;
use verdict::Refusal;

// Standard output, by its number.
const STDOUT_FILENO: i32 = 1;

pub fn say(s: &[u8]) {
    io::write_all(STDOUT_FILENO, s);
}

pub fn end_line() {
    say(b"\n");
}

// A number behind a space.
pub fn number(n: u64) {
    say(b" ");
    io::print_decimal(STDOUT_FILENO, n);
}

// An offset in front of what is found there.
pub fn offset(at: u64) {
    io::print_decimal(STDOUT_FILENO, at);
    say(b" ");
}

pub fn time(t: Epoch) {
    number(t.0);
}

// Bytes in hexadecimal, up to 2,048 of them.
pub fn bytes(s: &[u8]) {
    let mut digits = io::buffer();
    let n = test_text::with_bytes(&mut digits, 0, s);
    say(&digits[..n]);
}

pub fn bytes_line(s: &[u8]) {
    bytes(s);
    end_line();
}

// A refusal's number and its place.
fn numbers(r: Refusal) {
    number(u64::from(r.number));
    number(r.place);
}

pub fn refusal(r: Refusal) {
    say(b"refused");
    numbers(r);
}

pub fn refusal_line(r: Refusal) {
    refusal(r);
    end_line();
}

// The CRC-32 of a lent buffer, behind a space.
pub fn sum(s: &[u8]) {
    say(b" ");
    io::print_hex(STDOUT_FILENO, u64::from(crc32::checksum(s)), 8);
}

// What the library finds of a file whose rows it hands out.
pub trait Found: Copy {
    fn say(self);

    fn blocks(self) -> usize;
}

impl Found for Frame {
    fn say(self) {
        say(b"log");
        number(self.dictionary);
        number(u64::from(self.stored));
        number(self.index);
        number(self.blocks);
        time(self.first);
        time(self.last);
    }

    fn blocks(self) -> usize {
        self.blocks as usize
    }
}

impl Found for Report {
    fn say(self) {
        say(b"found");
        blocks_found(self.blocks, self.end, self.stop);
        say(if self.whole { b" whole" } else { b" none" });
    }

    fn blocks(self) -> usize {
        self.blocks as usize
    }
}

pub fn answer<F: Found>(a: Result<F, Refusal>) {
    match a {
        Ok(found) => found.say(),
        Err(r) => refusal(r),
    }
}

// An answer on a line, and then the rows of the table that was lent, a line each.
pub fn with_rows<F: Found>(a: Result<F, Refusal>, table: &[u8]) {
    answer(a);
    end_line();
    if let Ok(found) = a {
        rows(table, found.blocks());
    }
}

// A part of a file, or why there is none.
pub fn part(a: Result<&[u8], Refusal>) {
    match a {
        Ok(s) => bytes_line(s),
        Err(r) => refusal_line(r),
    }
}

// What stopped a scan: 0 at place 0 for a clean end.
fn stop(v: Result<(), Refusal>) {
    match v {
        Ok(()) => say(b" 0 0"),
        Err(r) => numbers(r),
    }
}

// How many blocks, the end of the last, and what stopped the scan.
fn blocks_found(blocks: u32, end: u64, v: Result<(), Refusal>) {
    number(u64::from(blocks));
    number(end);
    stop(v);
}

pub fn scanned(s: Scanned) {
    say(b"scanned");
    blocks_found(s.blocks, s.end, s.stop);
    end_line();
}

fn row(r: Row) {
    say(b"row");
    time(r.start);
    time(r.end);
    number(r.offset);
    number(u64::from(r.stored));
    end_line();
}

// The first n rows of a table, a line each.
fn rows(table: &[u8], n: usize) {
    for i in 0..n {
        row(rows::row_at(table, i));
    }
}
