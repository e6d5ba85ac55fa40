// The calls on plain books for programs in C (include/hplog.h).
#![tactic(auto)]

ghost use Rattle.std.specs.Prelude.{◌≡◌};
ghost use Rattle.verdict.specs.Rules.{given};
ghost use Rattle.c_book.specs.Books.{span_answer, c_book_of, c_parts_of, c_part_of};

use book::Span;
use c_answer::Answer;

fn found(p: Span) -> Answer
    ensures { result ≡ span_answer (given p) }
{
    Answer {
        number: 0,
        place: p.place as u64,
        count: p.length as u64,
    }
}

pub fn hplog_book(book: &[u8], blocks: u32) -> Answer
    ensures { result ≡ c_book_of book.now blocks }
{
    match book::check(book, blocks) {
        Ok(d) => found(d),
        Err(w) => c_answer::refused(w),
    }
}

pub fn hplog_book_parts(book: &[u8]) -> Answer
    ensures { result ≡ c_parts_of book.now }
{
    match book::count(book) {
        Ok(t) => Answer {
            number: 0,
            place: t.last as u64,
            count: t.blocks + 1,
        },
        Err(w) => c_answer::refused(w),
    }
}

pub fn hplog_book_part(book: &[u8], at: u64) -> Answer
    ensures { result ≡ c_part_of book.now at }
{
    found(book::part_at(book, at as usize))
}
