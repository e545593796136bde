// DCF77 minutes: reading, writing, and the number of a run.
ghost use Rattle.std.specs.Prelude.{[], ◌∷◌};
ghost use Rattle.clock_time.specs.Reading.{answer_of};
ghost use Rattle.clock_time.specs.Writing.{written};
ghost use Rattle.dcf77.specs.Accepts.{AcceptsMinute};
ghost use Rattle.dcf77.specs.Lines.{minute_lines};
ghost use Rattle.dcf77_outcome.specs.RunNumber.{RunNumber};
ghost use Rattle.demands.specs.Refusals.{RefusesInOrder, RefusesAndKeeps};
ghost use Rattle.demands.specs.Lines.{minute_order, writer_lines};
ghost use Rattle.demands.specs.Exactly.{ReadsExactly, WritesExactly};

use clock_time::Error;
use dcf77::MinuteTime;

fn read_minute(m: &[u8]) -> Result<MinuteTime, Error>
    ensures demand_1 { RefusesInOrder (minute_lines m.now) minute_order (answer_of result) }
    ensures demand_2 { ReadsExactly (AcceptsMinute m.now) (answer_of result) }
{
    dcf77::read_minute(m)
}

fn write_minute(a: MinuteTime, out: &mut [u8]) -> Result<usize, Error>
    ensures demand_1 { RefusesAndKeeps (writer_lines (λ m. AcceptsMinute m a) out.old) (23 ∷ 20 ∷ []) out.old
        (written result out.new) }
    ensures demand_2 { WritesExactly (λ m. AcceptsMinute m a) out.old (written result out.new) }
{
    dcf77_writer::write_minute(a, out)
}

fn run_number(m: &[u8]) -> u32
    ensures { RunNumber m.now result }
{
    dcf77_outcome::run_number(m)
}
