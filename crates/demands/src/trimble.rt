// The Trimble string: reading, in the library and from C. Statuses and kinds are numbers, and results behind pointers,
// since this is what C calls.
ghost use Rattle.std.specs.Prelude.{[], ◌∷◌, ◌++◌};
ghost use Rattle.clock_time.specs.Reading.{answer_of};
ghost use Rattle.clock_time.specs.Called.{called};
ghost use Rattle.trimble_sv6.specs.Accepts.{AcceptsTrimble};
ghost use Rattle.trimble_sv6.specs.Lines.{trimble_order, trimble_lines};
ghost use Rattle.c_numbers.specs.Numbers.{trimble_numbers};
ghost use Rattle.demands.specs.Refusals.{RefusesInOrder, CallRefusesAndKeeps};
ghost use Rattle.demands.specs.Trimble.{read_trimble_lines};
ghost use Rattle.demands.specs.Exactly.{ReadsExactly, CallReadsExactly};

use clock_time::Error;
use trimble_sv6::TrimbleTime;

fn read_trimble(s: &[u8]) -> Result<TrimbleTime, Error>
    ensures demand_1 { RefusesInOrder (trimble_lines s.now) trimble_order (answer_of result) }
    ensures demand_2 { ReadsExactly (AcceptsTrimble s.now) (answer_of result) }
{
    trimble_sv6::read_trimble(s)
}

fn radio_clock_read_trimble(s: &[u8], fields: &mut [i32]) -> u8
    ensures demand_1 { CallRefusesAndKeeps (read_trimble_lines s.now fields.old)
        (trimble_order ++ (20 ∷ []))
        fields.old (called result fields.new) }
    ensures demand_2 { CallReadsExactly trimble_numbers (AcceptsTrimble s.now) fields.old
        (called result fields.new) }
{
    c_readings::trimble::radio_clock_read_trimble(s, fields)
}
