// Time strings: the kind of a string, reading and writing by kind number.
ghost use Rattle.std.specs.Prelude.{◌≡◌};
ghost use Rattle.clock_time.specs.Called.{called, called_answer, called_memory, called_both};
ghost use Rattle.clock_time.specs.Exit.{exit};
ghost use Rattle.clock_time.specs.Reading.{answer_of};
ghost use Rattle.c_writer.specs.Writers.{write_from};
ghost use Rattle.c_readings.specs.Strings.{kind_number_of, read_into};

use c_numbers::put_answer;
use clock_time::{Error, called};
use time_string::Kind;

#[tactic(auto, unfolding(crate::specs::Strings::kind_number_of))]
fn kind_number_of(s: &[u8]) -> Result<u8, Error>
    ensures { answer_of result ≡ kind_number_of s.now }
{
    Ok(u8::from(time_string::kind_of(s)?))
}

// Leaves the number of the string's kind behind `kind`. Refuses with Length (1) if no kind has that length.
pub fn radio_clock_kind(s: &[u8], kind: &mut u8) -> u8
    ensures { called result kind.new ≡ called_answer kind.old (kind_number_of s.now) }
{
    called::put(kind_number_of(s), kind)
}

fn read_into(kind: u8, s: &[u8], fields: &mut [i32]) -> Result<(), Error>
    ensures { exit (answer_of result) fields.new ≡ read_into kind s.now fields.old }
{
    match Kind::try_from(kind)? {
        Kind::Standard => put_answer(meinberg_standard::read_standard(s), fields),
        Kind::Pzf => put_answer(meinberg_pzf::read_pzf(s), fields),
        Kind::Gps => put_answer(meinberg_gps::read_gps(s), fields),
        Kind::Elv => put_answer(elv_dcf7000::read_elv(s), fields),
    }
}

// Reads a string of the kind that a number names into the first of the numbers lent. Refuses with Length (1) if it
// names none, as the kind's reader does, then with LentMemory (20) if there is no room.
pub fn radio_clock_read(kind: u8, s: &[u8], fields: &mut [i32]) -> u8
    ensures { called result fields.new ≡ called_memory (read_into kind s.now fields.old) }
{
    called::status(read_into(kind, s, fields))
}

// Writes numbers as a string of the kind that a number names to the front of `out`, with its length behind `written`.
// Refuses with Length (1) if it names none, with Unrepresentable (23) if no such string is read as the numbers, then
// with LentMemory (20) if there is no room.
pub fn radio_clock_write(kind: u8, fields: &[i32], out: &mut [u8], written: &mut usize) -> u8
    ensures { called result (out.new, written.new)
        ≡ called_both written.old (write_from kind fields.now out.old) }
{
    called::put(c_writer::write_string(kind, fields, out), written)
}
