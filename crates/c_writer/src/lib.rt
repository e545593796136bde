// The numbers of a reading as a string of a kind, or as a run of marks.
#![tactic(auto)]

ghost use Rattle.std.specs.Prelude.{◌≡◌};
ghost use Rattle.clock_time.specs.Writing.{written};
ghost use Rattle.c_writer.specs.Writers.{write_as, write_from, write_minute_from};

use c_fields::FromNumbers;
use clock_time::{ClockTime, Error};
use dcf77::MinuteTime;
use meinberg_gps::GpsTime;
use time_string::Kind;

#[tactic(auto, using(crate::proofs::WriteLaws::by_kind))]
fn write_as(kind: Kind, fields: &[i32], out: &mut [u8]) -> Result<usize, Error>
    ensures { written result out.new ≡ write_as kind fields.now out.old }
{
    match kind {
        Kind::Standard => {
            meinberg_standard_writer::write_standard(ClockTime::from_numbers(fields)?, out)
        }
        Kind::Pzf => meinberg_pzf_writer::write_pzf(ClockTime::from_numbers(fields)?, out),
        Kind::Gps => meinberg_gps_writer::write_gps(GpsTime::from_numbers(fields)?, out),
        Kind::Elv => elv_dcf7000_writer::write_elv(ClockTime::from_numbers(fields)?, out),
    }
}

// Writes the numbers of a reading to the front of `out`, as a string of the kind that `kind` names. Refuses with Length
// (1) if it names none, with Unrepresentable (23) if no such string is read as the numbers, then with LentMemory (20)
// if there is no room. The kind is a number, as C names it, since it may name none.
#[tactic(auto, unfolding(crate::specs::Writers::write_from))]
pub fn write_string(kind: u8, fields: &[i32], out: &mut [u8]) -> Result<usize, Error>
    ensures { written result out.new ≡ write_from kind fields.now out.old }
{
    let kind = Kind::try_from(kind)?;
    write_as(kind, fields, out)
}

// Writes numbers as a run of marks to the front of `out`. Refuses with Unrepresentable (23) if no run is read as the
// numbers, then with LentMemory (20) if there is no room.
#[tactic(auto, unfolding(crate::specs::Writers::write_minute_from))]
pub fn write_marks(fields: &[i32], out: &mut [u8]) -> Result<usize, Error>
    ensures { written result out.new ≡ write_minute_from fields.now out.old }
{
    let a = MinuteTime::from_numbers(fields)?;
    dcf77_writer::write_minute(a, out)
}
