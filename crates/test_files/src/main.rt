// Runs cases of whole files against the compiled library.
//
// A line of standard input is a command and its words, with one space between them: numbers in decimal, bytes in
// hexadecimal ('-' for none). Empty lines and those that start with '#' are passed over. Kept from line to line are a
// file of up to 65,536 bytes, and a table of rows of 131,072. The commands are those of the crate `test_views` and
// these:
//   file HEX, append HEX         nothing: the bytes are the file, or come behind it
//   flips A B                    `glance` with the byte at each offset from A up to B one more, behind the offset
#![tactic(auto)]

// Standard input, by its number.
const STDIN_FILENO: i32 = 0;

// The first n bytes, with one of them one more while they are looked at.
fn flip(file: &mut [u8], n: usize, at: usize, table: &mut [u8]) {
    let b = wire::u8_at(&*file, at);
    wire::put_u8(file, at, b.wrapping_add(1));
    test_views::glance_at(at, wire::part_at(&*file, 0, n), table);
    wire::put_u8(file, at, b);
}

fn flips(file: &mut [u8], n: usize, from: usize, to: usize, table: &mut [u8]) {
    for at in from..to {
        flip(file, n, at, table);
    }
}

// The command of a line on a file of so many bytes; says how many it has then.
fn follow(line: &[u8], file: &mut [u8], n: usize, table: &mut [u8]) -> usize {
    if !test_text::is_command(line) {
        return n;
    }
    match test_text::word(line, 0) {
        b"file" => test_views::put(file, 0, test_text::word(line, 1)),
        b"append" => test_views::put(file, n, test_text::word(line, 1)),
        b"flips" => {
            flips(
                file,
                n,
                test_text::size_at(line, 1),
                test_text::size_at(line, 2),
                table,
            );
            n
        }
        _ => {
            test_views::look(line, wire::part_at(&*file, 0, n), table);
            n
        }
    }
}

// Each line of the input.
fn run(input: &[u8], file: &mut [u8], table: &mut [u8]) {
    let mut n = 0;
    for line in input.split(|b| *b == b'\n') {
        n = follow(line, file, n, table);
    }
}

fn main() {
    let mut input = io::large_buffer();
    let n = io::read_full(STDIN_FILENO, &mut input);
    let mut file = io::large_buffer();
    let mut table = test_views::table();
    run(&input[..n], &mut file, &mut table);
}
