// The calls of include/hplog.h, for programs in C: each is the one of the same name in the crates c_*, under the same
// promises. A length comes after each pointer.
#![tactic(auto)]

ghost use Rattle.c_block.specs.Block.{c_block_of};
ghost use Rattle.c_block.specs.Header.{c_header_of};
ghost use Rattle.c_book.specs.Books.{c_book_of, c_parts_of, c_part_of};
ghost use Rattle.c_listing.specs.Answers.{Started, StartedRange, Went};
ghost use Rattle.c_names.specs.Names.{c_names_of, c_name_of, c_name_at_of, c_number_of};
ghost use Rattle.c_open.specs.Open.{c_open_of, c_open_rows, c_open_frame};
ghost use Rattle.c_payload.specs.Steps.{delta_answer, count_answer, field_answer};
ghost use Rattle.c_query.specs.Label.{c_label_of};
ghost use Rattle.c_query.specs.Query.{c_query_of, c_query_out};
ghost use Rattle.c_recovery.specs.Recover.{c_recover_of, c_recover_rows, c_recover_report};
ghost use Rattle.c_recovery.specs.Repair.{c_repair_of};
ghost use Rattle.c_stored.specs.Stored.{c_stored_of, c_dictionary_of};
ghost use Rattle.c_writer.specs.Answers.{storing, naming, entering};
ghost use Rattle.c_writer.specs.State.{writer_in, state_of};
ghost use Rattle.cursor.specs.Answers.{delta_at, count_at, field_at};
ghost use Rattle.label.specs.Label.{label_out};
ghost use Rattle.packing.specs.Table.{records_in, fields_of};
ghost use Rattle.repair.specs.Repair.{repair_out};
ghost use Rattle.std.specs.Prelude.{◌≡◌, length};
ghost use Rattle.writer.specs.Begin.{begin_of, begin_out};
ghost use Rattle.writer.specs.State.{new_writer};
ghost use Rattle.writer_blocks.specs.Block.{adding, block_of, rows_out, block_out};
ghost use Rattle.writer_close.specs.Close.{close_of, close_out};
ghost use Rattle.writer_entries.specs.Entry.{entry_of, entry_out};
ghost use Rattle.writer_names.specs.Name.{name_of, name_out};

use c_answer::Answer;
use c_block::BlockAnswer;
use c_listing::Listed;
use c_payload::{FieldAnswer, Step};
use c_writer::{State, Written};
use cursor::Cursor;
use listing_numbers::Listing;

#[unsafe(no_mangle)]
pub extern "C" fn hplog_open(log: &[u8], rows: &mut [u8], frame: &mut [u8]) -> Answer
    ensures { let log₀ = log.now in
        let rows₀ = rows.old in
        let frame₀ = frame.old in
        (result ≡ c_open_of log₀ (length rows₀) (length frame₀))
        × (rows.new ≡ c_open_rows log₀ rows₀ (length frame₀))
        × (frame.new ≡ c_open_frame log₀ (length rows₀) frame₀) }
{
    c_open::hplog_open(log, rows, frame)
}

#[unsafe(no_mangle)]
pub extern "C" fn hplog_recover(log: &[u8], rows: &mut [u8], report: &mut [u8]) -> Answer
    ensures { let log₀ = log.now in
        let rows₀ = rows.old in
        let report₀ = report.old in
        (result ≡ c_recover_of log₀ (length rows₀) (length report₀))
        × (rows.new ≡ c_recover_rows log₀ rows₀ (length report₀))
        × (report.new ≡ c_recover_report log₀ (length rows₀) report₀) }
{
    c_recovery::hplog_recover(log, rows, report)
}

#[unsafe(no_mangle)]
pub extern "C" fn hplog_repair(log: &[u8], dictionary: &[u8], out: &mut [u8]) -> Answer
    ensures { let log₀ = log.now in
        let dictionary₀ = dictionary.now in
        let out₀ = out.old in
        (result ≡ c_repair_of log₀ dictionary₀ (length out₀))
        × (out.new ≡ repair_out log₀ dictionary₀ out₀) }
{
    c_recovery::hplog_repair(log, dictionary, out)
}

#[unsafe(no_mangle)]
pub extern "C" fn hplog_query(rows: &[u8], t1: u64, t2: u64, numbers: &mut [u8]) -> Answer
    ensures { let rows₀ = rows.now in
        let numbers₀ = numbers.old in
        (result ≡ c_query_of rows₀ t1 t2 (length numbers₀))
        × (numbers.new ≡ c_query_out rows₀ t1 t2 numbers₀) }
{
    c_query::hplog_query(rows, t1, t2, numbers)
}

#[unsafe(no_mangle)]
pub extern "C" fn hplog_label(name: &[u8], panel: &mut [u8]) -> Answer
    ensures { (result ≡ c_label_of name.now (length panel.old))
        × (panel.new ≡ label_out name.now panel.old) }
{
    c_query::hplog_label(name, panel)
}

#[unsafe(no_mangle)]
pub extern "C" fn hplog_stored(log: &[u8], rows: &[u8], i: u64) -> Answer
    ensures { result ≡ c_stored_of log.now rows.now i }
{
    c_stored::hplog_stored(log, rows, i)
}

#[unsafe(no_mangle)]
pub extern "C" fn hplog_dictionary(log: &[u8], frame: &[u8]) -> Answer
    ensures { result ≡ c_dictionary_of log.now frame.now }
{
    c_stored::hplog_dictionary(log, frame)
}

#[unsafe(no_mangle)]
pub extern "C" fn hplog_check_block(log: &[u8], at: u64, plain: &[u8], names: u32) -> Answer
    ensures { result ≡ c_block_of log.now at plain.now names }
{
    c_block::hplog_check_block(log, at, plain, names)
}

#[unsafe(no_mangle)]
pub extern "C" fn hplog_block(log: &[u8], rows: &[u8], i: u64) -> BlockAnswer
    ensures { result ≡ c_header_of log.now rows.now i }
{
    c_block::hplog_block(log, rows, i)
}

#[unsafe(no_mangle)]
pub extern "C" fn hplog_names(dictionary: &[u8]) -> Answer
    ensures { result ≡ c_names_of dictionary.now }
{
    c_names::hplog_names(dictionary)
}

#[unsafe(no_mangle)]
pub extern "C" fn hplog_name(dictionary: &[u8], i: u64) -> Answer
    ensures { result ≡ c_name_of dictionary.now i }
{
    c_names::hplog_name(dictionary, i)
}

#[unsafe(no_mangle)]
pub extern "C" fn hplog_name_at(dictionary: &[u8], at: u64) -> Answer
    ensures { result ≡ c_name_at_of dictionary.now at }
{
    c_names::hplog_name_at(dictionary, at)
}

#[unsafe(no_mangle)]
pub extern "C" fn hplog_number(dictionary: &[u8], name: &[u8]) -> Answer
    ensures { result ≡ c_number_of dictionary.now name.now }
{
    c_names::hplog_number(dictionary, name)
}

#[unsafe(no_mangle)]
pub extern "C" fn hplog_delta(payload: &[u8], at: Cursor) -> Step
    ensures { result ≡ delta_answer (delta_at payload.now at.at) }
{
    c_payload::hplog_delta(payload, at)
}

#[unsafe(no_mangle)]
pub extern "C" fn hplog_count(payload: &[u8], at: Cursor) -> Step
    ensures { result ≡ count_answer (count_at payload.now at.at) }
{
    c_payload::hplog_count(payload, at)
}

#[unsafe(no_mangle)]
pub extern "C" fn hplog_field(payload: &[u8], names: u32, at: Cursor) -> FieldAnswer
    ensures { result ≡ field_answer (field_at payload.now names at.at) }
{
    c_payload::hplog_field(payload, names, at)
}

#[unsafe(no_mangle)]
pub extern "C" fn hplog_book(book: &[u8], blocks: u32) -> Answer
    ensures { result ≡ c_book_of book.now blocks }
{
    c_book::hplog_book(book, blocks)
}

#[unsafe(no_mangle)]
pub extern "C" fn hplog_book_parts(book: &[u8]) -> Answer
    ensures { result ≡ c_parts_of book.now }
{
    c_book::hplog_book_parts(book)
}

#[unsafe(no_mangle)]
pub extern "C" fn hplog_book_part(book: &[u8], at: u64) -> Answer
    ensures { result ≡ c_part_of book.now at }
{
    c_book::hplog_book_part(book, at)
}

#[unsafe(no_mangle)]
pub extern "C" fn hplog_list(log: &[u8], book: &[u8]) -> Listed
    ensures { Started log.now book.now result }
{
    c_listing::hplog_list(log, book)
}

#[unsafe(no_mangle)]
pub extern "C" fn hplog_list_range(log: &[u8], book: &[u8], t1: u64, t2: u64) -> Listed
    ensures { StartedRange log.now book.now t1 t2 result }
{
    c_listing::hplog_list_range(log, book, t1, t2)
}

#[unsafe(no_mangle)]
pub extern "C" fn hplog_list_next(log: &[u8], book: &[u8], at: Listing, out: &mut [u8]) -> Listed
    ensures { Went log.now book.now at out.old result out.new }
{
    c_listing::hplog_list_next(log, book, at, out)
}

#[unsafe(no_mangle)]
pub extern "C" fn hplog_writer_new() -> State
    ensures { result ≡ state_of new_writer }
{
    c_writer::hplog_writer_new()
}

#[unsafe(no_mangle)]
pub extern "C" fn hplog_begin(state: State, out: &mut [u8]) -> Written
    ensures { let w = writer_in state in
        let before = out.old in
        (result ≡ storing state (begin_of w (length before))) × (out.new ≡ begin_out w before) }
{
    c_writer::hplog_begin(state, out)
}

#[unsafe(no_mangle)]
pub extern "C" fn hplog_add_name(state: State, dictionary: &mut [u8], name: &[u8]) -> Written
    ensures { let w = writer_in state in
        let before = dictionary.old in
        let text = name.now in
        (result ≡ naming state (name_of w before text)) × (dictionary.new ≡ name_out w before text) }
{
    c_writer::hplog_add_name(state, dictionary, name)
}

#[unsafe(no_mangle)]
pub extern "C" fn hplog_add_entry(
    state: State,
    payload: &mut [u8],
    time: u64,
    fields: &[u8],
    text: &[u8],
) -> Written
    ensures answer { let w = writer_in state in
        let bytes = text.now in
        let records = fields.now in
        let room = length payload.old in
        result ≡ entering state (entry_of w (record { 0 = time }) bytes (records_in records) (fields_of records) room) }
    ensures bytes { let w = writer_in state in
        let bytes = text.now in
        let records = fields.now in
        let before = payload.old in
        payload.new ≡ entry_out w (record { 0 = time }) bytes (records_in records) (fields_of records) before }
{
    c_writer::hplog_add_entry(state, payload, time, fields, text)
}

#[unsafe(no_mangle)]
pub extern "C" fn hplog_add_block(
    state: State,
    rows: &mut [u8],
    out: &mut [u8],
    start: u64,
    plain: &[u8],
    stored: &[u8],
    names: u32,
) -> Written
    ensures { let w = writer_in state in
        let a = adding (record { 0 = start }) plain.now stored.now names in
        let table = rows.old in
        let before = out.old in
        (result ≡ storing state (block_of w a (length table) (length before)))
        × (rows.new ≡ rows_out w a table (length before))
        × (out.new ≡ block_out w a (length table) before) }
{
    c_writer::hplog_add_block(state, rows, out, start, plain, stored, names)
}

#[unsafe(no_mangle)]
pub extern "C" fn hplog_close(
    state: State,
    rows: &[u8],
    out: &mut [u8],
    plain: &[u8],
    stored: &[u8],
) -> Written
    ensures { let w = writer_in state in
        let table = rows.now in
        let names = plain.now in
        let dictionary = stored.now in
        let before = out.old in
        (result ≡ storing state (close_of w table names dictionary (length before)))
        × (out.new ≡ close_out w table names dictionary before) }
{
    c_writer::hplog_close(state, rows, out, plain, stored)
}
