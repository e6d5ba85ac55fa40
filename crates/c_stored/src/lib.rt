// The calls that say where a file's stored bytes stand, for programs in C (include/hplog.h).
#![tactic(auto)]

ghost use Rattle.std.specs.Prelude.{◌≡◌};
ghost use Rattle.verdict.specs.Rules.{given};
ghost use Rattle.c_stored.specs.Stored.{span_answer, c_stored_of, c_dictionary_of};

use access::Span;
use c_answer::Answer;

fn found(p: Span) -> Answer
    ensures { result ≡ span_answer (given p) }
{
    Answer {
        number: 0,
        place: p.place as u64,
        count: p.length as u64,
    }
}

pub fn hplog_stored(log: &[u8], rows: &[u8], i: u64) -> Answer
    ensures { result ≡ c_stored_of log.now rows.now i }
{
    match access::locate(rows, rows::room(rows) as u64, i) {
        Ok(row) => found(access::stored_span(log, row)),
        Err(w) => Answer::from(w),
    }
}

pub fn hplog_dictionary(log: &[u8], frame: &[u8]) -> Answer
    ensures { result ≡ c_dictionary_of log.now frame.now }
{
    found(access::dictionary_span(log, wire::u64_at(frame, 0), wire::u64_at(frame, 8)))
}
