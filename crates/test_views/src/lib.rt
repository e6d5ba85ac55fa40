// Commands of the programs that look at a file, and what they print. Rows are written to a lent table; ROOM is how much
// of it is lent in that call.
//   open, open-in ROOM           log, D, stored size, index offset, blocks, first and last time; then a line for each
//                                row: start, end, offset, stored size
//   recover, recover-in ROOM     found, blocks, the end of the last, the number and place that stopped it, whole or
//                                none; then the rows
//   table                        the CRC-32 of the table
//   scan LIMIT                   scanned, blocks up to LIMIT, the end of the last, the number and place that stopped it
//   glance                       open's answer and recover's, on a line, without rows
//   cuts                         the same for the first k bytes of the file, for each k up to its length, behind k
//   stored I, dictionary         the stored bytes of block I or of the dictionary of the file
//   stored-at OFFSET SIZE        the stored bytes by a row that says so
//   bytes                        the file's bytes, up to 2,048
// A refusal is printed as refused, its number and its place.
#![tactic(auto)]

pub mod print;
mod reading;

ghost use Rattle.std.specs.Prelude.{◌≡◌, length};

pub use reading::glance_at;

fn table_sum(table: &[u8]) {
    print::say(b"table");
    print::sum(table);
    print::end_line();
}

// The number of a word that is one of 32 bits.
pub fn number32_at(line: &[u8], i: usize) -> u32 {
    (test_text::number_at(line, i) % 0x1_0000_0000) as u32
}

// The command of a line, on a file and a table.
pub fn look(line: &[u8], f: &[u8], table: &mut [u8]) {
    let n = test_text::number_at(line, 1);
    let all = table.len();
    match test_text::word(line, 0) {
        b"open" => reading::open_in(f, table, all),
        b"open-in" => reading::open_in(f, table, n as usize),
        b"recover" => reading::recover_in(f, table, all),
        b"recover-in" => reading::recover_in(f, table, n as usize),
        b"scan" => print::scanned(blocks::scan(f, n as usize)),
        b"glance" => reading::glance(f, table),
        b"cuts" => reading::cuts(f, table),
        b"stored" => reading::stored(f, table, n),
        b"stored-at" => reading::stored_at(f, n, number32_at(line, 2)),
        b"dictionary" => reading::dictionary(f, table),
        b"bytes" => print::bytes_line(f),
        b"table" => table_sum(&*table),
        _ => print::say(b"no such command\n"),
    }
}

// Puts the bytes that a word spells at an offset of a file, up to 4,096 of them, and says where they end.
pub fn put(file: &mut [u8], at: usize, hex: &[u8]) -> usize {
    let mut bytes = io::buffer();
    let n = test_text::unhex(hex, &mut bytes);
    test_text::with(file, at, &bytes[..n])
}

// Zeros, for a file of 4,096 small blocks. Here and below the `ensures` gives only the length, so that the elements are
// looked at once for all callers.
pub fn storage() -> [u8; 270000]
    ensures { 270000 ≡ length result }
{
    [0; 270000]
}

// Zeros, for 4,096 rows.
pub fn table() -> [u8; 131072]
    ensures { 131072 ≡ length result }
{
    [0; 131072]
}
