// The calls on plain dictionaries for programs in C (include/hplog.h).
#![tactic(auto)]

ghost use Rattle.std.specs.Prelude.{◌≡◌};
ghost use Rattle.verdict.specs.Rules.{given};
ghost use Rattle.c_names.specs.Names.{span_answer, c_names_of, c_name_of, c_name_at_of, c_number_of};

use c_answer::Answer;
use lookup::Span;

pub fn hplog_names(dictionary: &[u8]) -> Answer
    ensures { result ≡ c_names_of dictionary.now }
{
    match names::check(dictionary) {
        Ok(n) => c_answer::accepted(u64::from(n)),
        Err(w) => c_answer::refused(w),
    }
}

fn found(p: Span) -> Answer
    ensures { result ≡ span_answer (given p) }
{
    Answer {
        number: 0,
        place: p.place as u64,
        count: p.length as u64,
    }
}

pub fn hplog_name(dictionary: &[u8], i: u64) -> Answer
    ensures { result ≡ c_name_of dictionary.now i }
{
    match lookup::locate(dictionary, i) {
        Ok(p) => found(p),
        Err(w) => c_answer::refused(w),
    }
}

pub fn hplog_name_at(dictionary: &[u8], at: u64) -> Answer
    ensures { result ≡ c_name_at_of dictionary.now at }
{
    found(lookup::name_at(dictionary, at as usize))
}

pub fn hplog_number(dictionary: &[u8], name: &[u8]) -> Answer
    ensures { result ≡ c_number_of dictionary.now name.now }
{
    match name_search::number_of(dictionary, name) {
        Ok(Some(i)) => Answer {
            number: 0,
            place: 1,
            count: u64::from(i),
        },
        Ok(None) => c_answer::accepted(0),
        Err(w) => c_answer::refused(w),
    }
}
