// Runs published vectors and further cases against the compiled library.
//
// A line of standard input is a case: a group's name, the input in hexadecimal ('-' for none) and the answer that it
// must have, with one space between them. Empty lines and those that start with '#' are passed over. Groups and their
// answers:
//   crc32   the checksum, eight hexadecimal digits
//   utf8    valid or invalid
//   varint  cut, malformed, or the value, the position after it and the value's shortest form in hexadecimal
//   label   of a name: written, shortened or the refusal, and then a panel of twenty bytes AA afterwards
//   panel   the same, with a panel of fifteen bytes
//   names   of a plain dictionary: how many names it has, or the refusal
//   many    of a number of names (u32) and a kind (u8), from which a dictionary is made: the same; kind 1 makes the
//           last name equal to the first
//   name    of a number (u64) and a plain dictionary: the name's place, length and bytes, or the refusal
//   number  of a length (u8), a name and a plain dictionary: the name's number, missing, or the refusal
//   entries of a block's start (u64), a number of names (u32) and a payload: how many entries it has and the last one's
//   time, or the refusal
//   recover of a file: how many blocks, the end of the last, the number and place that stopped the scan, whether the
//   dictionary is whole, and a
//           lent table of 68 bytes AA afterwards; or the refusal
//   query   of two times (u64 each) and a table of rows: the numbers of the blocks chosen, or the refusal
//   slices  the same, over the rows as a slice of structs
// It prints how many cases of each group agree, and before that each case that doesn't, with the answer that the
// library gave.
#![tactic(auto)]

mod answers;
mod groups;
mod held;

use groups::Tally;

// The standard streams, by their numbers.
const STDIN_FILENO: i32 = 0;

const STDOUT_FILENO: i32 = 1;

// Prints a case that doesn't agree, and the answer that it got.
fn complain(line: &[u8], got: &[u8]) {
    io::write_all(STDOUT_FILENO, b"differs: ");
    io::write_all(STDOUT_FILENO, line);
    io::write_all(STDOUT_FILENO, b"\n    got: ");
    io::write_all(STDOUT_FILENO, got);
    io::write_all(STDOUT_FILENO, b"\n");
}

// The case of a group's name, an input and the answer that it must have, with the line that they are from.
fn judge(line: &[u8], name: &[u8], input: &[u8], wanted: &[u8], tally: Tally) -> Tally {
    let group = groups::named(name);
    let mut bytes = io::buffer();
    let n = test_text::unhex(input, &mut bytes);
    let mut out = io::buffer();
    let k = groups::answer(group, &bytes[..n], &mut out);
    let got = &out[..k];
    let agrees = got == wanted;
    if !agrees {
        complain(line, got);
    }
    groups::counted(tally, group, agrees)
}

// A line's words: up to the first space, up to the second, and the rest.
fn parse(line: &[u8], tally: Tally) -> Tally {
    let mut words = line.splitn(3, |b| *b == b' ');
    let name = words.next().unwrap_or(&[]);
    let input = words.next().unwrap_or(&[]);
    let wanted = words.next().unwrap_or(&[]);
    judge(line, name, input, wanted, tally)
}

// Each line of the input.
fn run(input: &[u8]) -> Tally {
    let mut tally = groups::none();
    for line in input.split(|b| *b == b'\n') {
        if test_text::is_command(line) {
            tally = parse(line, tally);
        }
    }
    tally
}

fn main() {
    let mut input = io::large_buffer();
    let n = io::read_full(STDIN_FILENO, &mut input);
    groups::report(run(&input[..n]));
}
