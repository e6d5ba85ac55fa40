// The calls on one block, its header and its plain bytes, for programs in C (include/hplog.h).
#![tactic(auto)]

ghost use Rattle.std.specs.Prelude.{◌≡◌, ◌+◌, ltb};
ghost use Rattle.verdict.specs.Rules.{given};
ghost use Rattle.c_block.specs.Block.{c_block_of};
ghost use Rattle.c_block.specs.Header.{no_header, header_answer, header_of, c_header_of};

use c_answer::Answer;
use parts::BlockHeader;
use verdict::Refusal;

// A block by its header: where that stands, and its fields.
#[repr(C)]
#[derive(Clone, Copy)]
pub struct BlockAnswer {
    pub number: u64,
    pub place: u64,
    pub offset: u64,
    pub start: u64,
    pub end: u64,
    pub entries: u64,
    pub stored: u64,
    pub plain: u64,
}

// Whether a log of n bytes ends within the header at a place, or before it.
fn is_cut(n: u64, at: u64) -> bool
    ensures { result ≡ ltb n (at + 36) }
{
    n.saturating_sub(at) < BlockHeader::LEN as u64
}

pub fn hplog_check_block(log: &[u8], at: u64, plain: &[u8], names: u32) -> Answer
    ensures { result ≡ c_block_of log.now at plain.now names }
{
    if is_cut(log.len() as u64, at) {
        return c_answer::refuse(6, at);
    }
    let header = BlockHeader::read(log, at as usize);
    match entries::check_block(plain, header, names) {
        Ok(()) => c_answer::accepted(u64::from(header.entries)),
        Err(w) => Answer::from(w),
    }
}

impl From<Refusal> for BlockAnswer {
    ghost from_gives = { λ w a. a ≡ no_header w.number w.place };

    fn from(w: Refusal) -> BlockAnswer {
        BlockAnswer {
            number: u64::from(w.number),
            place: w.place,
            offset: 0,
            start: 0,
            end: 0,
            entries: 0,
            stored: 0,
            plain: 0,
        }
    }
}

fn header_there(log: &[u8], at: u64) -> BlockAnswer
    ensures { result ≡ header_answer log.now (given at) }
{
    let h = BlockHeader::read(log, at as usize);
    BlockAnswer {
        number: 0,
        place: 0,
        offset: at,
        start: h.start.0,
        end: h.end.0,
        entries: u64::from(h.entries),
        stored: u64::from(h.stored),
        plain: u64::from(h.plain),
    }
}

// The header at a place, where the log has all of it.
fn header_at(log: &[u8], at: u64) -> BlockAnswer
    ensures { result ≡ header_of log.now at }
{
    if is_cut(log.len() as u64, at) {
        return BlockAnswer::from(Refusal {
            number: 6,
            place: at,
        });
    }
    header_there(log, at)
}

pub fn hplog_block(log: &[u8], rows: &[u8], i: u64) -> BlockAnswer
    ensures { result ≡ c_header_of log.now rows.now i }
{
    match access::locate(rows, rows::room(rows) as u64, i) {
        Ok(row) => header_at(log, row.offset),
        Err(w) => BlockAnswer::from(w),
    }
}
