// The writer for programs in C, its state by value (include/hplog.h).
#![tactic(auto)]

ghost use Rattle.std.specs.Prelude.{◌≡◌, length};
ghost use Rattle.packing.specs.Table.{records_in, fields_of};
ghost use Rattle.writer.specs.State.{new_writer};
ghost use Rattle.writer.specs.Begin.{begin_of, begin_out};
ghost use Rattle.writer_close.specs.Close.{close_of, close_out};
ghost use Rattle.writer.specs.Answer.{stored_of};
ghost use Rattle.writer_names.specs.Name.{name_of, name_out};
ghost use Rattle.writer_entries.specs.Entry.{entry_of, entry_out};
ghost use Rattle.writer_blocks.specs.Block.{adding, block_of, rows_out, block_out};
ghost use Rattle.c_writer.specs.State.{turn_for, number_of, writer_in, state_of};
ghost use Rattle.c_writer.specs.Answers.{went, stayed, storing, naming, entering};

use c_answer::Answer;
use parts::Epoch;
use verdict::Refusal;
use writer::{Pending, Turn, Writer};

// A writer in numbers alone.
#[repr(C)]
#[derive(Clone, Copy)]
pub struct State {
    pub length: u64,
    pub end: u64,
    pub dictionary: u64,
    pub start: u64,
    pub last: u64,
    pub plain: u64,
    pub blocks: u32,
    pub given: u32,
    pub names: u32,
    pub turn: u32,
}

#[repr(C)]
#[derive(Clone, Copy)]
pub struct Written {
    pub answer: Answer,
    pub next: State,
}

fn turn_for(n: u32) -> Turn
    ensures { result ≡ turn_for n }
{
    match n {
        0 => Turn::New,
        1 => Turn::Begun,
        _ => Turn::Closed,
    }
}

fn number_of(t: Turn) -> u32
    ensures { result ≡ number_of t }
{
    match t {
        Turn::New => 0,
        Turn::Begun => 1,
        Turn::Closed => 2,
    }
}

impl From<State> for Writer {
    ghost from_gives = { λ s w. w ≡ writer_in s };

    fn from(s: State) -> Writer {
        Writer {
            turn: turn_for(s.turn),
            blocks: s.blocks,
            length: s.length,
            end: Epoch(s.end),
            given: s.given,
            names: s.names,
            dictionary: s.dictionary,
            pending: Pending {
                start: Epoch(s.start),
                last: Epoch(s.last),
                plain: s.plain,
            },
        }
    }
}

impl From<Writer> for State {
    ghost from_gives = { λ w s. s ≡ state_of w };

    fn from(w: Writer) -> State {
        State {
            length: w.length,
            end: w.end.0,
            dictionary: w.dictionary,
            start: w.pending.start.0,
            last: w.pending.last.0,
            plain: w.pending.plain,
            blocks: w.blocks,
            given: w.given,
            names: w.names,
            turn: number_of(w.turn),
        }
    }
}

// Behind a call that was accepted.
fn behind(w: Writer, count: u64) -> Written
    ensures { result ≡ went w count }
{
    Written {
        answer: c_answer::accepted(count),
        next: State::from(w),
    }
}

// Behind one that was refused.
fn unchanged(s: State, r: Refusal) -> Written
    ensures { result ≡ stayed s r.number r.place }
{
    Written {
        answer: c_answer::refused(r),
        next: s,
    }
}

fn stored_by(s: State, r: Result<(Writer, u64), Refusal>) -> Written
    ensures { result ≡ storing s (stored_of r) }
{
    match r {
        Ok((w, n)) => behind(w, n),
        Err(r) => unchanged(s, r),
    }
}

pub fn hplog_writer_new() -> State
    ensures { result ≡ state_of new_writer }
{
    State::from(Writer::new())
}

pub fn hplog_begin(state: State, out: &mut [u8]) -> Written
    ensures { let w = writer_in state in
        let before = out.old in
        (result ≡ storing state (begin_of w (length before))) × (out.new ≡ begin_out w before) }
{
    stored_by(state, Writer::from(state).begin(out))
}

pub fn hplog_add_name(state: State, dictionary: &mut [u8], name: &[u8]) -> Written
    ensures { let w = writer_in state in
        let before = dictionary.old in
        let text = name.now in
        (result ≡ naming state (name_of w before text)) × (dictionary.new ≡ name_out w before text) }
{
    match writer_names::add_name(Writer::from(state), dictionary, name) {
        Ok((next, i)) => behind(next, u64::from(i)),
        Err(r) => unchanged(state, r),
    }
}

pub fn hplog_add_entry(
    state: State,
    payload: &mut [u8],
    time: u64,
    fields: &[u8],
    text: &[u8],
) -> Written
    ensures answer { let w = writer_in state in
        let bytes = text.now in
        let records = fields.now in
        let room = length payload.old in
        result ≡ entering state (entry_of w (record { 0 = time }) bytes (records_in records) (fields_of records) room) }
    ensures bytes { let w = writer_in state in
        let bytes = text.now in
        let records = fields.now in
        let before = payload.old in
        payload.new ≡ entry_out w (record { 0 = time }) bytes (records_in records) (fields_of records) before }
{
    match writer_entries::add_entry(Writer::from(state), payload, Epoch(time), fields, text) {
        Ok(next) => behind(next, 0),
        Err(r) => unchanged(state, r),
    }
}

pub fn hplog_add_block(
    state: State,
    rows: &mut [u8],
    out: &mut [u8],
    start: u64,
    plain: &[u8],
    stored: &[u8],
    names: u32,
) -> Written
    ensures { let w = writer_in state in
        let a = adding (record { 0 = start }) plain.now stored.now names in
        let table = rows.old in
        let before = out.old in
        (result ≡ storing state (block_of w a (length table) (length before)))
        × (rows.new ≡ rows_out w a table (length before))
        × (out.new ≡ block_out w a (length table) before) }
{
    let w = Writer::from(state);
    stored_by(
        state,
        writer_blocks::add_block(w, rows, out, Epoch(start), plain, stored, names),
    )
}

pub fn hplog_close(
    state: State,
    rows: &[u8],
    out: &mut [u8],
    plain: &[u8],
    stored: &[u8],
) -> Written
    ensures { let w = writer_in state in
        let table = rows.now in
        let names = plain.now in
        let dictionary = stored.now in
        let before = out.old in
        (result ≡ storing state (close_of w table names dictionary (length before)))
        × (out.new ≡ close_out w table names dictionary before) }
{
    let w = Writer::from(state);
    stored_by(state, writer_close::close(w, rows, out, plain, stored))
}
