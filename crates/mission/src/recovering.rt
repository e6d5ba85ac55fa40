// Recovery and repair of what a cut leaves of a writer's stores: demand 3 as the promises of the calls.
ghost use Rattle.recovery.specs.Answer.{recovered_of};
ghost use Rattle.repair.specs.Answer.{repaired_of};
ghost use Rattle.mission.specs.Tied.{RecoversCut, RepairsCut};

use recovery::Report;
use repair::Kept;
use verdict::Refusal;

pub fn recover(f: &[u8], table: &mut [u8]) -> Result<Report, Refusal>
    ensures { RecoversCut (recovered_of result) f.now table.old table.new }
{
    recovery::recover(f, table)
}

pub fn repair(f: &[u8], lent: &[u8], out: &mut [u8]) -> Result<Kept, Refusal>
    ensures { RepairsCut (repaired_of result) f.now lent.now out.old out.new }
{
    repair::repair(f, lent, out)
}
