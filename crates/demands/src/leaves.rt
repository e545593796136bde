// Functions that no user of the library calls, but that refuse: their refusals in their order, and their answer by its
// definition.
ghost use Rattle.std.specs.Prelude.{◌≡◌, not, false, [], ◌∷◌, ltb, length};
ghost use Rattle.clock_time.specs.Reading.{answer_of};
ghost use Rattle.clock_time.specs.Errors.{given, checked};
ghost use Rattle.clock_time.specs.Writing.{written};
ghost use Rattle.calendar.specs.Date.{with_weekday};
ghost use Rattle.calendar.specs.UnixTime.{is_reading};
ghost use Rattle.layout.specs.Text.{supported_day, clock_checks};
ghost use Rattle.meinberg_gps_position.specs.Rules.{PositionRules, SaysPosition, position_lines};
ghost use Rattle.listing_lines.specs.Line.{time_line, write_line};
ghost use Rattle.listing_lines.specs.Totals.{totals_line, write_totals};
ghost use Rattle.clock_time.specs.FieldRanges.{time_ranges, gps_ranges};
ghost use Rattle.c_fields.specs.Ranges.{minute_ranges, fits, fits_all};
ghost use Rattle.c_fields.specs.Ranges.{first_time_of, time_of, gps_of, minute_of};
ghost use Rattle.demands.specs.Refusals.{tests, RefusesInOrder, RefusesAndKeeps};
ghost use Rattle.demands.specs.Lines.{write_lines, writer_lines};
ghost use Rattle.demands.specs.Accepted.{AcceptsNumbers, AcceptsMinuteNumbers};
ghost use Rattle.demands.specs.Exactly.{ReadsExactly, WritesExactly};

use c_fields::FromNumbers;
use clock_time::{ClockTime, Error, Position};
use dcf77::MinuteTime;
use listing_lines::Totals;
use meinberg_gps::GpsTime;

// The kind is a number, as C names it.
fn write_string(kind: u8, fields: &[i32], out: &mut [u8]) -> Result<usize, Error>
    ensures demand_1 { RefusesAndKeeps (write_lines kind fields.now out.old) (1 ∷ 23 ∷ 20 ∷ []) out.old
        (written result out.new) }
    ensures demand_2 { WritesExactly (λ s. AcceptsNumbers kind s fields.now) out.old
        (written result out.new) }
{
    c_writer::write_string(kind, fields, out)
}

fn write_marks(fields: &[i32], out: &mut [u8]) -> Result<usize, Error>
    ensures demand_1 { RefusesAndKeeps (writer_lines (λ m. AcceptsMinuteNumbers m fields.now) out.old)
        (23 ∷ 20 ∷ []) out.old (written result out.new) }
    ensures demand_2 { WritesExactly (λ m. AcceptsMinuteNumbers m fields.now) out.old
        (written result out.new) }
{
    c_writer::write_marks(fields, out)
}

fn check_clock(t: ClockTime, mismatch: bool) -> Result<ClockTime, Error>
    ensures demand_1 { RefusesInOrder (tests (clock_checks (supported_day t) t mismatch)) (5 ∷ 6 ∷ 7 ∷ [])
        (answer_of result) }
    ensures answer { answer_of result ≡ checked (clock_checks (supported_day t) t mismatch) t }
{
    layout::check_clock(t, mismatch)
}

fn check_without_weekday(t: ClockTime) -> Result<ClockTime, Error>
    ensures demand_1 { RefusesInOrder (tests (clock_checks (supported_day t) (with_weekday t) false)) (5 ∷ 6 ∷ 7 ∷ [])
        (answer_of result) }
    ensures answer { answer_of result
        ≡ checked (clock_checks (supported_day t) (with_weekday t) false) (with_weekday t) }
{
    layout::check_without_weekday(t)
}

fn read_position(s: &[u8]) -> Result<Position, Error>
    ensures demand_1 { RefusesInOrder (position_lines s.now) (9 ∷ []) (answer_of result) }
    ensures answer { ReadsExactly (λ p. PositionRules s.now × SaysPosition s.now p) (answer_of result) }
{
    meinberg_gps_position::read_position(s)
}

fn first_time_of(z: &[i32]) -> Result<ClockTime, Error>
    ensures demand_1 { RefusesInOrder (tests (given 23 (not (fits time_ranges z.now)) ∷ [])) (23 ∷ [])
        (answer_of result) }
    ensures answer { answer_of result ≡ first_time_of z.now }
{
    c_fields::first_time_of(z)
}

fn time_of(z: &[i32]) -> Result<ClockTime, Error>
    ensures demand_1 { RefusesInOrder (tests (given 23 (not (fits_all time_ranges z.now)) ∷ [])) (23 ∷ [])
        (answer_of result) }
    ensures answer { answer_of result ≡ time_of z.now }
{
    ClockTime::from_numbers(z)
}

fn gps_of(z: &[i32]) -> Result<GpsTime, Error>
    ensures demand_1 { RefusesInOrder (tests (given 23 (not (fits_all gps_ranges z.now)) ∷ [])) (23 ∷ [])
        (answer_of result) }
    ensures answer { answer_of result ≡ gps_of z.now }
{
    GpsTime::from_numbers(z)
}

fn minute_of(z: &[i32]) -> Result<MinuteTime, Error>
    ensures demand_1 { RefusesInOrder (tests (given 23 (not (fits_all minute_ranges z.now)) ∷ [])) (23 ∷ [])
        (answer_of result) }
    ensures answer { answer_of result ≡ minute_of z.now }
{
    MinuteTime::from_numbers(z)
}

fn write_line(t: ClockTime, out: &mut [u8]) -> Result<usize, Error>
    ensures demand_1 { RefusesAndKeeps
        (tests (given 23 (not (is_reading t)) ∷ given 20 (ltb (length out.old) (length (time_line t))) ∷ []))
        (23 ∷ 20 ∷ []) out.old (written result out.new) }
    ensures answer { written result out.new ≡ write_line t out.old }
{
    listing_lines::write_line(t, out)
}

fn write_totals(t: Totals, out: &mut [u8]) -> Result<usize, Error>
    ensures demand_1 { RefusesAndKeeps
        (tests (given 20 (ltb (length out.old) (length (totals_line t))) ∷ [])) (20 ∷ []) out.old
        (written result out.new) }
    ensures answer { written result out.new ≡ write_totals t out.old }
{
    listing_lines::write_totals(t, out)
}
