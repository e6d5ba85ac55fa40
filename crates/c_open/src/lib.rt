// Opening a file for programs in C, on numbers and lent bytes. A length comes after each pointer (include/hplog.h).
#![tactic(auto)]

ghost use Rattle.std.specs.Prelude.{◌≡◌, false, [], ◌∷◌, ◌++◌, length};
ghost use Rattle.verdict.specs.Rules.{flag, first_broken, settle};
ghost use Rattle.wire.specs.Wire.{splice};
ghost use Rattle.frame.specs.Frame.{frame_of};
ghost use Rattle.reader.specs.Open.{call_rules};
ghost use Rattle.c_answer.specs.Answer.{answered};
ghost use Rattle.c_open.specs.Open.{frame_bytes, c_open_of, c_open_rows, c_open_frame};

use c_answer::Answer;
use frame::Frame;

const FRAME: usize = 40;

fn put_frame(out: &mut [u8], log: Frame)
    ensures { out.new ≡ splice out.old 0 (frame_bytes log) }
{
    wire::put_u64(out, 0, log.dictionary);
    wire::put_u64(out, 8, log.stored as u64);
    wire::put_u64(out, 16, log.index);
    wire::put_u64(out, 24, log.first.0);
    wire::put_u64(out, 32, log.last.0);
}

// What opening answers where the frame has no room: what is wrong with the log and with the room of its rows comes
// first.
fn open_short(log: &[u8], rows: usize) -> Answer
    ensures { let log₀ = log.now in
        result ≡ answered (settle (first_broken (call_rules log₀ rows ++ (flag 12 40 false ∷ [])))
        (frame_of log₀).blocks) }
{
    match reader::check(log) {
        Err(w) => Answer::from(w),
        Ok(f) => {
            let needed = f.blocks * rows::STRIDE as u64;
            if (rows as u64) < needed {
                return c_answer::refuse(12, needed);
            }
            c_answer::refuse(12, FRAME as u64)
        }
    }
}

pub fn hplog_open(log: &[u8], rows: &mut [u8], frame: &mut [u8]) -> Answer
    ensures { let log₀ = log.now in
        let rows₀ = rows.old in
        let frame₀ = frame.old in
        (result ≡ c_open_of log₀ (length rows₀) (length frame₀))
        × (rows.new ≡ c_open_rows log₀ rows₀ (length frame₀))
        × (frame.new ≡ c_open_frame log₀ (length rows₀) frame₀) }
{
    if frame.len() < FRAME {
        return open_short(log, rows.len());
    }
    match reader::open(log, rows) {
        Err(w) => Answer::from(w),
        Ok(f) => {
            put_frame(frame, f);
            c_answer::accepted(f.blocks)
        }
    }
}
