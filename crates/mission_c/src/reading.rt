// The calls for C that read: opening, recovery, repair, names and the steps.
ghost use Rattle.std.specs.Prelude.{◌≡◌, length};
ghost use Rattle.cursor.specs.Answers.{delta_at, count_at, field_at};
ghost use Rattle.repair.specs.Repair.{repair_out};
ghost use Rattle.c_open.specs.Open.{c_open_of, c_open_rows, c_open_frame};
ghost use Rattle.c_recovery.specs.Recover.{c_recover_of, c_recover_rows, c_recover_report};
ghost use Rattle.c_recovery.specs.Repair.{c_repair_of};
ghost use Rattle.c_names.specs.Names.{c_names_of, c_name_of};
ghost use Rattle.c_payload.specs.Steps.{delta_answer, count_answer, field_answer};

use c_answer::Answer;
use c_payload::{FieldAnswer, Step};
use cursor::Cursor;

pub fn open(log: &[u8], rows: &mut [u8], frame: &mut [u8]) -> Answer
    ensures answer { result ≡ c_open_of log.now (length rows.old) (length frame.old) }
    ensures rows { rows.new ≡ c_open_rows log.now rows.old (length frame.old) }
    ensures frame { frame.new ≡ c_open_frame log.now (length rows.old) frame.old }
{
    c_open::hplog_open(log, rows, frame)
}

pub fn recover(log: &[u8], rows: &mut [u8], report: &mut [u8]) -> Answer
    ensures answer { result ≡ c_recover_of log.now (length rows.old) (length report.old) }
    ensures rows { rows.new ≡ c_recover_rows log.now rows.old (length report.old) }
    ensures report { report.new ≡ c_recover_report log.now (length rows.old) report.old }
{
    c_recovery::hplog_recover(log, rows, report)
}

pub fn repair(log: &[u8], dictionary: &[u8], out: &mut [u8]) -> Answer
    ensures answer { result ≡ c_repair_of log.now dictionary.now (length out.old) }
    ensures file { out.new ≡ repair_out log.now dictionary.now out.old }
{
    c_recovery::hplog_repair(log, dictionary, out)
}

pub fn names(dictionary: &[u8]) -> Answer
    ensures { result ≡ c_names_of dictionary.now }
{
    c_names::hplog_names(dictionary)
}

pub fn name(dictionary: &[u8], i: u64) -> Answer
    ensures { result ≡ c_name_of dictionary.now i }
{
    c_names::hplog_name(dictionary, i)
}

pub fn delta(payload: &[u8], at: Cursor) -> Step
    ensures { result ≡ delta_answer (delta_at payload.now at.at) }
{
    c_payload::hplog_delta(payload, at)
}

pub fn count(payload: &[u8], at: Cursor) -> Step
    ensures { result ≡ count_answer (count_at payload.now at.at) }
{
    c_payload::hplog_count(payload, at)
}

pub fn field(payload: &[u8], names: u32, at: Cursor) -> FieldAnswer
    ensures { result ≡ field_answer (field_at payload.now names at.at) }
{
    c_payload::hplog_field(payload, names, at)
}
