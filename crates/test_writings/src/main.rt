// Runs cases of the writer's calls, and of repair, against the compiled library.
//
// A line of standard input is a command and its words, with one space between them: numbers in decimal, bytes in
// hexadecimal ('-' for none). Empty lines and those that start with '#' are passed over. Kept from line to line are a
// file and a writer with the bytes lent to it: a plain dictionary of 4,096 bytes, the open block's plain bytes of
// 4,096, rows of 131,072, an output of 270,000. What the writer stores is put in the file, headers at its start and
// other stores at its end. ROOM is how much of a lent buffer is lent in that call. Commands and what they print, beside
// those of the crate `test_views`, which look at the file:
//   new                          nothing: a new writer and an empty file
//   begin ROOM                   done, how many bytes were stored and the first 200 of them
//   name ROOM HEX                number, and the name's number
//   long-name ROOM LENGTH        the same of a name of so many letters, up to 65,536
//   entry ROOM TIME HEX          entered; the bytes are the field count and the fields as they stand in a payload
//   entry-count ROOM TIME COUNT  the same of an entry of so many nulls of name 0, up to 2,730; those behind 255 are of
//                                no meaning
//   entry-part ROOM TIME ID PLACE LENGTH HEX    the same of an entry with one string, at a place in the text given
//   entry-text ROOM TIME TYPE HEX               the same of the whole number 1 and a text of that type, of name 0 both
//   block ROWS ROOM START NAMES PLAIN STORED    as begin; ROWS is how much of the rows is lent
//   blocks N                     the last answer of N blocks of one entry of no fields, each at the end of the one
//                                before
//   close ROOM PLAIN STORED      as begin
//   state                        turn, blocks, length, end, names given, names held, length of the dictionary, the open
//                                block's start, last time
//                                and length; then the CRC-32 of each of the writer's four buffers
//   repair ROOM HEX              repaired, the finished file's length, how many bytes it keeps, the CRC-32 of the
//                                output; it is the file then.
//                                The bytes are the lent stored dictionary
//   append HEX, cut LENGTH       nothing: the bytes come behind the file, or it ends there
//   change OFFSET HEX            nothing: the bytes are those of the file from there on
// A refusal is printed as refused, its number and its place.
#![tactic(auto)]

mod answers;
mod calls;
mod commands;
mod draft;

use commands::Command;
use draft::Draft;

// Standard input, by its number.
const STDIN_FILENO: i32 = 0;

// The command of a line, with all that is lent.
fn follow(
    line: &[u8],
    s: Draft,
    file: &mut [u8],
    found: &mut [u8],
    dictionary: &mut [u8],
    payload: &mut [u8],
    table: &mut [u8],
    out: &mut [u8],
) -> Draft {
    let c = commands::named(line);
    match c {
        Command::Enter(e) => calls::enter(e, line, s, dictionary, payload),
        Command::File(c) => calls::file(c, line, s, table, out, file),
        Command::New => draft::at_first(),
        Command::State => {
            draft::state(s, &*dictionary, &*payload, &*table, &*out);
            s
        }
        Command::Look => {
            test_views::look(line, wire::part_at(&*file, 0, s.len), found);
            s
        }
        Command::Nothing => s,
    }
}

// Each line of the input.
fn run(
    input: &[u8],
    file: &mut [u8],
    found: &mut [u8],
    dictionary: &mut [u8],
    payload: &mut [u8],
    table: &mut [u8],
    out: &mut [u8],
) {
    let mut s = draft::at_first();
    let mut at = 0;
    while at < input.len() {
        let end = test_text::find(input, at, b'\n');
        let line = &input[at..end];
        s = follow(line, s, file, found, dictionary, payload, table, out);
        at = test_text::past(input, end);
    }
}

fn main() {
    let mut input = io::large_buffer();
    let n = io::read_full(STDIN_FILENO, &mut input);
    let mut file = test_views::storage();
    let mut found = test_views::table();
    let mut dictionary = io::buffer();
    let mut payload = io::buffer();
    let mut table = test_views::table();
    let mut out = test_views::storage();
    run(
        &input[..n],
        &mut file,
        &mut found,
        &mut dictionary,
        &mut payload,
        &mut table,
        &mut out,
    );
}
