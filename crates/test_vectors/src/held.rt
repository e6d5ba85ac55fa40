// The query over the rows of a table, held as structs.
ghost use Rattle.verdict.specs.Answer.{outcome_of};
ghost use Rattle.std.specs.Prelude.{◌≡◌, ◌/◌, min, length};
ghost use Rattle.rows.specs.Rows.{stride, rows_of};
ghost use Rattle.query.specs.Query.{query_of, query_out};

use parts::Epoch;
use rows::Row;
use verdict::Refusal;

// Asks for the first rows of a table, eight at most.
pub fn ask(table: &[u8], from: Epoch, to: Epoch, numbers: &mut [u32]) -> Result<u32, Refusal>
    ensures { let table₀ = table.now in
        let numbers₀ = numbers.old in
        (outcome_of result ≡ query_of (rows_of (min (length table₀ / stride) 8) table₀) from to (length numbers₀))
        × (numbers.new ≡ query_out (rows_of (min (length table₀ / stride) 8) table₀) from to numbers₀) }
{
    let empty = Row::empty();
    let mut held = [empty; 8];
    let n = query_slice::fill(table, &mut held);
    query_slice::query(&held[..n], from, to, numbers)
}
