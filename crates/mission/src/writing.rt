// The writer's calls: what each answers, leaves and stores is what the claims' calls answer, leave and store.
ghost use Rattle.verdict.specs.Answer.{outcome_of};
ghost use Rattle.std.specs.Prelude.{◌≡◌, []};
ghost use Rattle.writer.specs.State.{new_writer};
ghost use Rattle.writer.specs.Answer.{stored_of};
ghost use Rattle.writer_names.specs.Answer.{named_of};
ghost use Rattle.writer_blocks.specs.Block.{adding};
ghost use Rattle.claims.specs.Calls.{begin, name, entry, block, close};
ghost use Rattle.mission.specs.Tied.{Storing, Keeping, state_in};

use parts::Epoch;
use verdict::Refusal;
use writer::Writer;

pub fn new_writer() -> Writer
    ensures { result ≡ new_writer }
{
    Writer::new()
}

pub fn begin(w: Writer, out: &mut [u8]) -> Result<(Writer, u64), Refusal>
    ensures { Storing w (begin out.old) (stored_of result) [] out.new }
{
    w.begin(out)
}

pub fn add_name(w: Writer, dictionary: &mut [u8], text: &[u8]) -> Result<(Writer, u32), Refusal>
    ensures { let call = name dictionary.old text.now in
        Keeping w call (state_in (named_of result)) dictionary.new }
{
    writer_names::add_name(w, dictionary, text)
}

pub fn add_entry(
    w: Writer,
    payload: &mut [u8],
    time: Epoch,
    fields: &[u8],
    text: &[u8],
) -> Result<Writer, Refusal>
    ensures { let call = entry payload.old time text.now fields.now in
        Keeping w call (outcome_of result) payload.new }
{
    writer_entries::add_entry(w, payload, time, fields, text)
}

pub fn add_block(
    w: Writer,
    table: &mut [u8],
    out: &mut [u8],
    start: Epoch,
    plain: &[u8],
    stored: &[u8],
    names: u32,
) -> Result<(Writer, u64), Refusal>
    ensures { let added = adding start plain.now stored.now names in
        let call = block table.old added out.old in
        Storing w call (stored_of result) table.new out.new }
{
    writer_blocks::add_block(w, table, out, start, plain, stored, names)
}

pub fn close(
    w: Writer,
    table: &[u8],
    out: &mut [u8],
    plain: &[u8],
    stored: &[u8],
) -> Result<(Writer, u64), Refusal>
    ensures { let call = close table.now plain.now stored.now out.old in
        Storing w call (stored_of result) table.now out.new }
{
    writer_close::close(w, table, out, plain, stored)
}
