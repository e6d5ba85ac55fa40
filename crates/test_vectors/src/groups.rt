// The groups of cases, and how many of each agree.
ghost use Rattle.std.specs.Prelude.{◌<◌};
ghost use Rattle.io.specs.Counts.{IsPrefixLen};

use crate::answers;

// Standard output, by its number.
const STDOUT_FILENO: i32 = 1;

#[derive(Clone, Copy)]
pub enum Group {
    Crc32,
    Utf8,
    Varint,
    Label,
    Panel,
    Names,
    Many,
    Name,
    Number,
    Query,
    Slices,
    Entries,
    Recover,
    Unknown,
}

pub fn named(name: &[u8]) -> Group {
    match name {
        b"crc32" => Group::Crc32,
        b"utf8" => Group::Utf8,
        b"varint" => Group::Varint,
        b"label" => Group::Label,
        b"panel" => Group::Panel,
        b"names" => Group::Names,
        b"many" => Group::Many,
        b"name" => Group::Name,
        b"number" => Group::Number,
        b"query" => Group::Query,
        b"slices" => Group::Slices,
        b"entries" => Group::Entries,
        b"recover" => Group::Recover,
        _ => Group::Unknown,
    }
}

// Puts the library's answer to an input into a buffer, and says how long it is.
pub fn answer(group: Group, s: &[u8], out: &mut [u8]) -> usize
    ensures { IsPrefixLen result out.new }
{
    match group {
        Group::Crc32 => answers::crc32(s, out),
        Group::Utf8 => answers::utf8(s, out),
        Group::Varint => answers::varint(s, out),
        Group::Label => answers::label(s, out),
        Group::Panel => answers::panel(s, out),
        Group::Names => answers::names(s, out),
        Group::Many => answers::many(s, out),
        Group::Name => answers::name(s, out),
        Group::Number => answers::number(s, out),
        Group::Query => answers::query(s, out),
        Group::Slices => answers::slices(s, out),
        Group::Entries => answers::entries(s, out),
        Group::Recover => answers::recover(s, out),
        Group::Unknown => test_text::with(out, 0, b"no such group"),
    }
}

// How many cases a group has, and how many of them agree.
#[derive(Clone, Copy)]
pub struct Count {
    agree: u64,
    cases: u64,
}

// The count of each group, at its place among the groups.
#[derive(Clone, Copy)]
pub struct Tally([Count; 14]);

pub fn none() -> Tally {
    Tally([Count { agree: 0, cases: 0 }; 14])
}

pub fn counted(mut t: Tally, group: Group, agrees: bool) -> Tally {
    let count = &mut t.0[group as usize];
    count.cases = count.cases.wrapping_add(1);
    count.agree = count.agree.wrapping_add(u64::from(agrees));
    t
}

fn print_count(name: &[u8], count: Count) {
    io::write_all(STDOUT_FILENO, name);
    io::write_all(STDOUT_FILENO, b": ");
    io::print_decimal(STDOUT_FILENO, count.agree);
    io::write_all(STDOUT_FILENO, b" of ");
    io::print_decimal(STDOUT_FILENO, count.cases);
    io::write_all(STDOUT_FILENO, b" agree\n");
}

// The groups' names, as they are printed.
fn names() -> [&'static [u8]; 14] {
    [
        b"crc32",
        b"utf8",
        b"varint",
        b"label",
        b"panel",
        b"names",
        b"many",
        b"name",
        b"number",
        b"query",
        b"slices",
        b"entries",
        b"recover",
        b"no such group",
    ]
}

pub fn report(t: Tally) {
    for (name, count) in names().iter().zip(t.0) {
        print_count(name, count);
    }
}
