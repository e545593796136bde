// The marks of a minute, made as the bits of one number. Each `spell_` function returns the number whose bits are the
// marks of its part of the run, mark 0 the lowest.
ghost use Rattle.std.specs.Prelude.{◌≡◌, not, [], ◌∷◌, ◌++◌, ◌/◌, ◌%◌};
ghost use Rattle.clock_time.specs.Writing.{written};
ghost use Rattle.dcf77.specs.Marks.{bits};
ghost use Rattle.dcf77.specs.Writable.{Spells, fields_representable, minute_representable};
ghost use Rattle.dcf77.specs.Minute.{mark, with_parity, first_marks_of, minute_text, write_minute};

use clock_time::{ClockTime, Error};
use dcf77::MinuteTime;

// Marks 15 to 20.
fn spell_flags(t: ClockTime) -> u64
    ensures { Spells 6
        (mark t.alternate_antenna
        ∷ mark t.dst_change_announced
        ∷ mark t.summer_time
        ∷ mark (not t.summer_time)
        ∷ mark t.leap_second_announced
        ∷ 1
        ∷ []) result }
{
    let zone = u64::from(t.summer_time) + 2 * u64::from(!t.summer_time);
    let low = u64::from(t.alternate_antenna) + 2 * u64::from(t.dst_change_announced) + 4 * zone;
    low + 16 * (u64::from(t.leap_second_announced) + 2)
}

// Marks 21 to 28, the parity last.
// This and the next two share only the call of `parity`.
fn spell_minute(minute: u8) -> u64
    ensures { Spells 8 (with_parity (bits 4 (minute % 10) ++ bits 3 (minute / 10))) result }
{
    let n = (minute % 10) as u64 + 16 * ((minute / 10 % 8) as u64);
    n + 128 * bits::parity(n)
}

// Marks 29 to 35, the parity last.
fn spell_hour(hour: u8) -> u64
    ensures { Spells 7 (with_parity (bits 4 (hour % 10) ++ bits 2 (hour / 10))) result }
{
    let n = (hour % 10) as u64 + 16 * ((hour / 10 % 4) as u64);
    n + 64 * bits::parity(n)
}

// Marks 45 to 57.
fn spell_month(t: ClockTime) -> u64
    ensures { Spells 13
        (bits 4 (t.month % 10) ++ bits 1 (t.month / 10) ++ bits 4 (t.year % 10) ++ bits 4 (t.year / 10 % 10))
        result }
{
    let decade = (t.year % 10) as u64 + 16 * ((t.year / 10 % 10) as u64);
    (t.month % 10) as u64 + 16 * ((t.month / 10 % 2) as u64 + 2 * decade)
}

// Marks 36 to 58, the parity last.
fn spell_date(t: ClockTime) -> u64
    ensures { Spells 23
        (with_parity (bits 4 (t.day % 10) ++ bits 2 (t.day / 10) ++ bits 3 t.weekday ++ bits 4 (t.month % 10)
        ++ bits 1 (t.month / 10) ++ bits 4 (t.year % 10) ++ bits 4 (t.year / 10 % 10))) result }
{
    let rest = (t.weekday % 8) as u64 + 8 * spell_month(t);
    let n = (t.day % 10) as u64 + 16 * ((t.day / 10 % 4) as u64 + 4 * rest);
    n + 4194304 * bits::parity(n)
}

// Marks 0 to 58.
fn spell_run(a: MinuteTime) -> u64
    ensures { Spells 59 (first_marks_of a) result }
{
    let t = a.time;
    let flags = spell_flags(t);
    let date = spell_date(t);
    let groups = spell_minute(t.minute) + 256 * (spell_hour(t.hour) + 128 * date);
    2 * ((a.detail.first_marks % 16384) as u64 + 16384 * (flags + 64 * groups))
}

// The bits of a number, the lowest first.
fn put_bits(n: u64) -> [u8; 60]
    ensures { result ≡ bits 60 n }
{
    let mut marks = [0; 60];
    let mut rest = n;
    for mark in marks.iter_mut() {
        *mark = (rest % 2) as u8;
        rest /= 2;
    }
    marks
}

// The 59 marks of a minute, and a short one after them.
pub(crate) fn sixty_marks(a: MinuteTime) -> [u8; 60]
    ensures { result ≡ first_marks_of a ++ (0 ∷ []) }
{
    put_bits(spell_run(a))
}

// Whether a minute can have the fields, but for what every format asks and for the offset.
#[tactic(auto, unfolding(dcf77::specs::Writable::fields_representable))]
fn are_fields_representable(a: MinuteTime) -> bool
    ensures { result ≡ fields_representable a }
{
    let t = a.time;
    let d = a.detail;
    (t.second == 0)
        & !t.unsynchronised
        & !t.unverified
        & (d.first_marks < 16384)
        & !(d.sixty & !(t.leap_second_announced & (t.minute == 0)))
}

// Whether a run of marks is read as the minute.
fn is_representable(a: MinuteTime) -> bool
    ensures { result ≡ minute_representable a }
{
    let t = a.time;
    if are_fields_representable(a) & (t.utc_offset == clock_time::cet_offset(t.summer_time)) {
        return calendar::representable::is_representable(t);
    }
    false
}

// Writes the run that is made of a minute, if it is read as that minute.
// Run and test are this format's own: see `clock_time::write_bytes`.
pub(crate) fn write_run(a: MinuteTime, run: &[u8], out: &mut [u8]) -> Result<usize, Error>
    requires { run.now ≡ minute_text a }
    ensures { written result out.new ≡ write_minute a out.old }
{
    let writable = is_representable(a);
    clock_time::write_bytes(writable, run, out)
}
