// The steps that read a block's plain bytes for programs in C (include/hplog.h).
#![tactic(auto)]

ghost use Rattle.std.specs.Prelude.{◌≡◌, Err};
ghost use Rattle.cursor.specs.Answers.{delta_at, count_at, field_at};
ghost use Rattle.c_payload.specs.Steps.{stepped, stopped, delta_answer, count_answer, read_field, field_answer};

use cursor::{Cursor, Field, Value};
use verdict::Refusal;

// A number read, and where the next step begins.
#[repr(C)]
#[derive(Clone, Copy)]
pub struct Step {
    pub number: u64,
    pub place: u64,
    pub value: u64,
    pub next: Cursor,
}

// A field read: its value's bits, or where its text stands in the payload.
#[repr(C)]
#[derive(Clone, Copy)]
pub struct FieldAnswer {
    pub number: u64,
    pub place: u64,
    pub id: u64,
    pub kind: u64,
    pub bits: u64,
    pub from: u64,
    pub length: u64,
    pub next: Cursor,
}

fn stepped_to(value: u64, next: Cursor) -> Step
    ensures { result ≡ stepped value next }
{
    Step {
        number: 0,
        place: 0,
        value,
        next,
    }
}

impl From<Refusal> for Step {
    ghost from_gives = { λ r s. s ≡ stopped r };

    fn from(r: Refusal) -> Step {
        Step {
            number: u64::from(r.number),
            place: r.place,
            value: 0,
            next: Cursor { at: 0 },
        }
    }
}

impl From<Refusal> for FieldAnswer {
    ghost from_gives = { λ r a. a ≡ field_answer (Err r) };

    fn from(r: Refusal) -> FieldAnswer {
        FieldAnswer {
            number: u64::from(r.number),
            place: r.place,
            id: 0,
            kind: 0,
            bits: 0,
            from: 0,
            length: 0,
            next: Cursor { at: 0 },
        }
    }
}

pub fn hplog_delta(payload: &[u8], at: Cursor) -> Step
    ensures { result ≡ delta_answer (delta_at payload.now at.at) }
{
    match at.delta(payload) {
        Ok((d, next)) => stepped_to(d.0, next),
        Err(r) => Step::from(r),
    }
}

pub fn hplog_count(payload: &[u8], at: Cursor) -> Step
    ensures { result ≡ count_answer (count_at payload.now at.at) }
{
    match at.count(payload) {
        Ok((n, next)) => stepped_to(u64::from(n), next),
        Err(r) => Step::from(r),
    }
}

fn field_of(id: u16, kind: u8, bits: u64, from: usize, length: usize, next: Cursor) -> FieldAnswer
    ensures { result ≡ read_field id kind bits from length next }
{
    FieldAnswer {
        number: 0,
        place: 0,
        id: u64::from(id),
        kind: u64::from(kind),
        bits,
        from: from as u64,
        length: length as u64,
        next,
    }
}

fn field_read(f: Field, next: Cursor) -> FieldAnswer
    ensures { result ≡ field_answer (Ok (f, next)) }
{
    match f.value {
        Value::Text(from, n) => field_of(f.id, 0, 0, from, n, next),
        Value::Whole(z) => field_of(f.id, 1, z.cast_unsigned(), 0, 0, next),
        Value::Real(_, bits) => field_of(f.id, 2, bits, 0, 0, next),
        Value::Truth(b) => field_of(f.id, 3, u64::from(b), 0, 0, next),
        Value::Null => field_of(f.id, 4, 0, 0, 0, next),
        Value::Json(from, n) => field_of(f.id, 5, 0, from, n, next),
    }
}

pub fn hplog_field(payload: &[u8], names: u32, at: Cursor) -> FieldAnswer
    ensures { result ≡ field_answer (field_at payload.now names at.at) }
{
    match at.field(payload, names) {
        Ok((f, next)) => field_read(f, next),
        Err(r) => FieldAnswer::from(r),
    }
}
