// What each command does, with the words of its line.
use crate::commands::{Changing, Entering, Filing, Storing};
use crate::draft::{Adding, Draft};
use crate::{answers, draft};
use cursor::{Field, Value};
use parts::{Epoch, Header};
use verdict::Refusal;
use writer::Writer;

// On the file's own bytes.
fn change(c: Changing, line: &[u8], s: Draft, file: &mut [u8]) -> Draft {
    let n = test_text::size_at(line, 1);
    match c {
        Changing::Append => draft::with_len(
            s,
            test_views::put(file, s.len, test_text::word(line, 1)),
        ),
        Changing::Cut => draft::with_len(
            s,
            test_text::reach(wire::part_at(&*file, 0, s.len), 0, n),
        ),
        Changing::Change => {
            test_views::put(file, n, test_text::word(line, 2));
            s
        }
    }
}

fn adding(line: &[u8]) -> Adding {
    Adding {
        rows: test_text::size_at(line, 1),
        room: test_text::size_at(line, 2),
        start: Epoch(test_text::number_at(line, 3)),
        names: test_views::number32_at(line, 4),
    }
}

// A string of a name at a place in a text.
fn part(line: &[u8]) -> Field {
    Field {
        id: (test_text::number_at(line, 3) % 0x1_0000) as u16,
        value: Value::Text(test_text::size_at(line, 4), test_text::size_at(line, 5)),
    }
}

pub fn enter(
    c: Entering,
    line: &[u8],
    s: Draft,
    dictionary: &mut [u8],
    payload: &mut [u8],
) -> Draft {
    let room = test_text::size_at(line, 1);
    let second = test_text::number_at(line, 2);
    match c {
        Entering::Name => draft::name(s, room, test_text::word(line, 2), dictionary),
        Entering::LongName => draft::long_name(s, room, second as usize, dictionary),
        Entering::Entry => draft::entry(s, room, second, test_text::word(line, 3), payload),
        Entering::EntryCount => draft::entry_count(
            s,
            room,
            second,
            test_text::size_at(line, 3),
            payload,
        ),
        Entering::EntryPart => {
            draft::entry_part(
                s,
                room,
                second,
                part(line),
                test_text::word(line, 6),
                payload,
            )
        }
        Entering::EntryText => {
            let kind = (test_text::number_at(line, 3) % 0x100) as u8;
            draft::entry_text(s, room, second, kind, test_text::word(line, 4), payload)
        }
    }
}

fn block(
    line: &[u8],
    w: Writer,
    table: &mut [u8],
    out: &mut [u8],
) -> Result<(Writer, u64), Refusal> {
    let plain = test_text::word(line, 5);
    let stored = test_text::word(line, 6);
    draft::block(w, adding(line), plain, stored, table, out)
}

fn close(line: &[u8], w: Writer, table: &[u8], out: &mut [u8]) -> Result<(Writer, u64), Refusal> {
    let plain = test_text::word(line, 2);
    let stored = test_text::word(line, 3);
    draft::close(w, test_text::size_at(line, 1), plain, stored, table, out)
}

fn call(
    c: Storing,
    line: &[u8],
    w: Writer,
    table: &mut [u8],
    out: &mut [u8],
) -> Result<(Writer, u64), Refusal> {
    match c {
        Storing::Begin => draft::begin(w, test_text::size_at(line, 1), out),
        Storing::Block => block(line, w, table, out),
        Storing::Close => close(line, w, &*table, out),
    }
}

// How long the header is that a call's stores start with.
fn header(c: Storing) -> usize {
    match c {
        Storing::Begin => Header::LEN,
        Storing::Block => 0,
        Storing::Close => Header::LEN,
    }
}

fn store(
    c: Storing,
    line: &[u8],
    s: Draft,
    table: &mut [u8],
    out: &mut [u8],
    file: &mut [u8],
) -> Draft {
    let w = s.writer;
    let r = call(c, line, w, table, out);
    answers::stored(r, &*out);
    draft::behind(s, r, header(c), &*out, file)
}

fn repair(line: &[u8], s: Draft, out: &mut [u8], file: &mut [u8]) -> Draft {
    let f = wire::part_at(&*file, 0, s.len);
    let r = draft::mend(
        f,
        test_text::size_at(line, 1),
        test_text::word(line, 2),
        out,
    );
    answers::repaired(r, &*out);
    draft::behind_repair(s, r, &*out, file)
}

pub fn file(
    c: Filing,
    line: &[u8],
    s: Draft,
    table: &mut [u8],
    out: &mut [u8],
    file: &mut [u8],
) -> Draft {
    match c {
        Filing::Store(t) => store(t, line, s, table, out, file),
        Filing::Blocks => draft::blocks(s, test_text::size_at(line, 1), table, out, file),
        Filing::Repair => repair(line, s, out, file),
        Filing::Change(h) => change(h, line, s, file),
    }
}
