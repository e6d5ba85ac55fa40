// The choice of blocks and the label for programs in C, on numbers and lent bytes. A length comes after each pointer
// (include/hplog.h).
#![tactic(auto)]

ghost use Rattle.std.specs.Prelude.{◌≡◌, [], ◌∷◌, ◌+◌, ◌*◌, ◌≤◌, length};
ghost use Rattle.wire.specs.Wire.{splice};
ghost use Rattle.label.specs.Label.{label_out};
ghost use Rattle.query.specs.Query.{chosen, most_rows};
ghost use Rattle.c_query.specs.Query.{c_rows, numbers_bytes, c_query_of, c_query_out};
ghost use Rattle.c_query.specs.Label.{c_label_of};

use c_answer::Answer;
use parts::Epoch;
use rows::Row;

// The number i where its row is listed, as four bytes at an offset; the offset behind it.
fn put_number(out: &mut [u8], at: usize, i: u32, row: Row, from: Epoch, to: Epoch) -> usize
    requires { at + 4 * length (chosen from to i (row ∷ [])) ≤ length out.old }
    ensures { let out₀ = out.old in
        (result ≡ at + 4 * length (chosen from to i (row ∷ [])))
        × (out.new ≡ splice out₀ at (numbers_bytes (chosen from to i (row ∷ [])))) }
{
    if query::lists(row, from, to) {
        let end = at + 4;
        wire::put_u32(&mut out[at..end], 0, i);
        return end;
    }
    at
}

// The numbers of the listed rows. Each row and each number is a part of its own, of a length that is known, so that
// reading and writing it take no test.
fn put_numbers(out: &mut [u8], rows: &[u8], from: Epoch, to: Epoch)
    requires { let rows₀ = rows.now in
        (length (c_rows rows₀) ≤ most_rows)
        × (4 * length (chosen from to 0 (c_rows rows₀)) ≤ length out.old) }
    ensures { let out₀ = out.old in
        let rows₀ = rows.now in
        out.new ≡ splice out₀ 0 (numbers_bytes (chosen from to 0 (c_rows rows₀))) }
{
    let count = rows::room(rows);
    let mut at = 0;
    for i in 0..count {
        let start = i * rows::STRIDE;
        let end = start + rows::STRIDE;
        let row = rows::row_at(&rows[start..end], 0);
        at = put_number(out, at, i as u32, row, from, to);
    }
}

pub fn hplog_query(rows: &[u8], t1: u64, t2: u64, numbers: &mut [u8]) -> Answer
    ensures { let rows₀ = rows.now in
        let numbers₀ = numbers.old in
        (result ≡ c_query_of rows₀ t1 t2 (length numbers₀))
        × (numbers.new ≡ c_query_out rows₀ t1 t2 numbers₀) }
{
    let n = rows.len();
    if t2 < t1 {
        return c_answer::refuse(13, t1);
    }
    if n % rows::STRIDE != 0 {
        return c_answer::refuse(6, n as u64);
    }
    let k = match query::count(rows, Epoch(t1), Epoch(t2)) {
        Ok(k) => k,
        Err(w) => return c_answer::refused(w),
    };
    let needed = 4 * k as usize;
    if numbers.len() < needed {
        return c_answer::refuse(12, needed as u64);
    }
    put_numbers(numbers, rows, Epoch(t1), Epoch(t2));
    c_answer::accepted(u64::from(k))
}

pub fn hplog_label(name: &[u8], panel: &mut [u8]) -> Answer
    ensures { (result ≡ c_label_of name.now (length panel.old))
        × (panel.new ≡ label_out name.now panel.old) }
{
    match label::label(name, panel) {
        Err(w) => c_answer::refused(w),
        Ok(shortened) => c_answer::accepted(c_answer::flag(shortened)),
    }
}
