// The commands on readings, as the C API has them: a kind is its number there, and 4 for a DCF77 minute, whose text
// has a digit for each mark. `read` reads a text, and adds 1 if it is written back the same; `kind` tells the kind
// first; `trimble` reads a Trimble string, which is not written; `write` writes numbers into a lent buffer; `unix`
// gives the Unix time of numbers.
ghost use Rattle.std.specs.Prelude.{◌≤◌};

use crate::output;
use crate::refusal::{Refusal, check};
use c_readings::instant::radio_clock_unix_time;
use c_readings::minutes::{radio_clock_read_minute, radio_clock_write_minute};
use c_readings::strings::{radio_clock_kind, radio_clock_read, radio_clock_write};
use c_readings::trimble::radio_clock_read_trimble;

pub const MINUTE: u8 = 4;

// The most numbers that a reading has.
const MOST_FIELDS: usize = 17;

// How many numbers a reading of this kind has.
fn count_of(kind: u8) -> usize
    ensures { result ≤ 17 }
{
    match kind {
        2 => 17,
        MINUTE => 16,
        _ => 14,
    }
}

fn read(kind: u8, s: &[u8], fields: &mut [i32]) -> Result<(), Refusal> {
    check(match kind {
        MINUTE => radio_clock_read_minute(s, fields),
        _ => radio_clock_read(kind, s, fields),
    })
}

fn write(kind: u8, fields: &[i32], lent: &mut [u8]) -> Result<usize, Refusal> {
    let mut count = 0;
    check(match kind {
        MINUTE => radio_clock_write_minute(fields, lent, &mut count),
        _ => radio_clock_write(kind, fields, lent, &mut count),
    })?;
    Ok(count)
}

fn kind_of(s: &[u8]) -> Result<u8, Refusal> {
    let mut kind = 0;
    check(radio_clock_kind(s, &mut kind))?;
    Ok(kind)
}

fn put_fields(rt: &impl Print, fields: &[i32]) {
    for field in fields {
        output::put(rt, *field);
    }
}

// True if the numbers are written as s.
fn are_written_as(kind: u8, fields: &[i32], s: &[u8]) -> bool {
    let mut space = [0u8; 66];
    match write(kind, fields, &mut space) {
        Ok(count) => space.get(..count).unwrap_or(&space) == s,
        Err(_) => false,
    }
}

// Puts the numbers that s is read as, and whether they are written back as s.
pub fn put_read(rt: &impl Print, kind: u8, s: &[u8]) {
    let mut space = [0; MOST_FIELDS];
    if let Err(refusal) = read(kind, s, &mut space) {
        output::put(rt, refusal);
        return;
    }
    let fields = &space[..count_of(kind)];
    put_fields(rt, fields);
    output::put_truth(rt, are_written_as(kind, fields, s));
}

// Puts the kind of s, and what it is read as.
pub fn put_kind(rt: &impl Print, s: &[u8]) {
    let kind = kind_of(s);
    output::put_result(rt, kind);
    if let Ok(kind) = kind {
        put_read(rt, kind, s);
    }
}

// Puts the numbers that s is read as, as a Trimble string.
pub fn put_trimble(rt: &impl Print, s: &[u8]) {
    let mut fields = [0; 15];
    match check(radio_clock_read_trimble(s, &mut fields)) {
        Ok(()) => put_fields(rt, &fields),
        Err(refusal) => output::put(rt, refusal),
    }
}

// Writes into the first `room` bytes of the space; none if it has fewer.
fn write_first(kind: u8, fields: &[i32], space: &mut [u8], room: usize) -> Result<usize, Refusal> {
    match space.get_mut(..room) {
        Some(lent) => write(kind, fields, lent),
        None => Ok(0),
    }
}

// Puts how many bytes are written, and the buffer. The first number is the kind, the last the room, and those between
// are what is written; of fewer than two numbers these are zeros.
pub fn put_written(rt: &impl Print, numbers: &[u64]) {
    let kind = numbers.first().copied().unwrap_or(0);
    let room = numbers.last().copied().unwrap_or(0) as usize;
    let given: &[u64] = match numbers {
        [_, given @ .., _] => given,
        _ => &[0; MOST_FIELDS],
    };
    let mut fields = [0; MOST_FIELDS];
    for (field, number) in fields.iter_mut().zip(given) {
        *field = low_bits(*number);
    }
    let fields = fields.get(..given.len()).unwrap_or(&fields);
    let mut space = output::EMPTY;
    output::put_result(
        rt,
        write_first((kind % 256) as u8, fields, &mut space, room),
    );
    let base = if kind == u64::from(MINUTE) { b'0' } else { 0 };
    output::put_text(rt, &space, room, base);
}

// The low 32 bits as a signed number.
fn low_bits(number: u64) -> i32 {
    ((number % 4294967296) as u32).cast_signed()
}

// The Unix time of the numbers.
pub fn unix_time(fields: &[i32]) -> Result<i64, Refusal> {
    let mut time = 0;
    check(radio_clock_unix_time(fields, &mut time))?;
    Ok(time)
}
