// Recovery and repair of a file for programs in C, on numbers and lent bytes. A length comes after each pointer
// (include/hplog.h).
#![tactic(auto)]

ghost use Rattle.std.specs.Prelude.{◌≡◌, false, [], ◌∷◌, ◌++◌, length};
ghost use Rattle.verdict.specs.Rules.{flag, first_broken, settle};
ghost use Rattle.verdict.specs.Answer.{verdict_of};
ghost use Rattle.wire.specs.Wire.{splice};
ghost use Rattle.recovery.specs.Recovery.{report_of, call_rules};
ghost use Rattle.repair.specs.Repair.{repair_out};
ghost use Rattle.c_answer.specs.Answer.{answered};
ghost use Rattle.c_recovery.specs.Recover.{stop_number, stop_place, report_bytes};
ghost use Rattle.c_recovery.specs.Recover.{c_recover_of, c_recover_rows, c_recover_report};
ghost use Rattle.c_recovery.specs.Repair.{c_repair_of};

use c_answer::Answer;
use recovery::Report;
use verdict::Refusal;

const REPORT: usize = 32;

// The number and the place of what stopped a scan, both 0 for a clean end.
fn stop_of(stop: Result<(), Refusal>) -> Refusal
    ensures { (result.number ≡ stop_number (verdict_of stop)) × (result.place ≡ stop_place (verdict_of stop)) }
{
    stop.err().unwrap_or(Refusal {
        number: 0,
        place: 0,
    })
}

fn put_report(out: &mut [u8], report: Report)
    ensures { let out₀ = out.old in
        out.new ≡ splice out₀ 0 (report_bytes report.end (verdict_of report.stop) report.whole) }
{
    let w = stop_of(report.stop);
    wire::put_u64(out, 0, report.end);
    wire::put_u64(out, 8, u64::from(w.number));
    wire::put_u64(out, 16, w.place);
    wire::put_u64(out, 24, u64::from(report.whole));
}

// What recovery answers where the report has no room: what is wrong with the header and with the room of the rows comes
// first.
fn recover_short(log: &[u8], rows: usize) -> Answer
    ensures { let log₀ = log.now in
        result
        ≡ answered
        (settle (first_broken (call_rules log₀ rows ++ (flag 12 32 false ∷ []))) (length (report_of log₀).rows)) }
{
    match recovery::survey(log) {
        Err(w) => Answer::from(w),
        Ok(report) => {
            let needed = report.blocks as u64 * rows::STRIDE as u64;
            if (rows as u64) < needed {
                return c_answer::refuse(12, needed);
            }
            c_answer::refuse(12, REPORT as u64)
        }
    }
}

pub fn hplog_recover(log: &[u8], rows: &mut [u8], report: &mut [u8]) -> Answer
    ensures { let log₀ = log.now in
        let rows₀ = rows.old in
        let report₀ = report.old in
        (result ≡ c_recover_of log₀ (length rows₀) (length report₀))
        × (rows.new ≡ c_recover_rows log₀ rows₀ (length report₀))
        × (report.new ≡ c_recover_report log₀ (length rows₀) report₀) }
{
    if report.len() < REPORT {
        return recover_short(log, rows.len());
    }
    match recovery::recover(log, rows) {
        Err(w) => Answer::from(w),
        Ok(found) => {
            put_report(report, found);
            c_answer::accepted(found.blocks as u64)
        }
    }
}

pub fn hplog_repair(log: &[u8], dictionary: &[u8], out: &mut [u8]) -> Answer
    ensures { let log₀ = log.now in
        let dictionary₀ = dictionary.now in
        let out₀ = out.old in
        (result ≡ c_repair_of log₀ dictionary₀ (length out₀))
        × (out.new ≡ repair_out log₀ dictionary₀ out₀) }
{
    match repair::repair(log, dictionary, out) {
        Err(w) => Answer::from(w),
        Ok(k) => c_answer::accepted(k.length),
    }
}
