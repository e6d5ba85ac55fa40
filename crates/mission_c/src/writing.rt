// The writer's calls for C.
ghost use Rattle.std.specs.Prelude.{◌≡◌, []};
ghost use Rattle.writer_blocks.specs.Block.{adding};
ghost use Rattle.claims.specs.Calls.{begin, name, entry, block, close};
ghost use Rattle.claims_c.specs.Edge.{new_state};
ghost use Rattle.mission_c.specs.Tied.{Answering};

use c_writer::{State, Written};

pub fn new_state() -> State
    ensures { result ≡ new_state }
{
    c_writer::hplog_writer_new()
}

pub fn begin(s: State, out: &mut [u8]) -> Written
    ensures { Answering s (begin out.old) result [] out.new }
{
    c_writer::hplog_begin(s, out)
}

pub fn add_name(s: State, dictionary: &mut [u8], text: &[u8]) -> Written
    ensures { let call = name dictionary.old text.now in
        Answering s call result dictionary.new [] }
{
    c_writer::hplog_add_name(s, dictionary, text)
}

pub fn add_entry(s: State, payload: &mut [u8], time: u64, fields: &[u8], text: &[u8]) -> Written
    ensures { let call = entry payload.old (record { 0 = time }) text.now fields.now in
        Answering s call result payload.new [] }
{
    c_writer::hplog_add_entry(s, payload, time, fields, text)
}

pub fn add_block(
    s: State,
    table: &mut [u8],
    out: &mut [u8],
    start: u64,
    plain: &[u8],
    stored: &[u8],
    names: u32,
) -> Written
    ensures { let added = adding (record { 0 = start }) plain.now stored.now names in
        let call = block table.old added out.old in
        Answering s call result table.new out.new }
{
    c_writer::hplog_add_block(s, table, out, start, plain, stored, names)
}

pub fn close(s: State, table: &[u8], out: &mut [u8], plain: &[u8], stored: &[u8]) -> Written
    ensures { let call = close table.now plain.now stored.now out.old in
        Answering s call result table.now out.new }
{
    c_writer::hplog_close(s, table, out, plain, stored)
}
