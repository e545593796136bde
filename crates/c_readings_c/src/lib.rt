// What C calls of readings: strings, minutes, the feed and Unix time. Each exported function returns 0, or the number
// of its refusal, and leaves its results in memory that the caller lends. A refusal changes nothing lent. The C
// interface needs the statuses and kinds as numbers, and the results behind pointers. Each only calls the function of
// its name in c_readings, and promises what that promises. They stand twice since a crate is a library or an archive.
#![tactic(auto)]

ghost use Rattle.c_feed.specs.Feed.{feed_memory, feed_into};
ghost use Rattle.c_readings.specs.Minutes.{read_minute_into};
ghost use Rattle.c_readings.specs.Strings.{kind_number_of, read_into, unix_time_of};
ghost use Rattle.c_readings.specs.Trimble.{read_trimble_into};
ghost use Rattle.c_writer.specs.Writers.{write_from, write_minute_from};
ghost use Rattle.clock_time.specs.Called.{called, called_answer, called_memory, called_both};
ghost use Rattle.std.specs.Prelude.{◌≡◌};

// Leaves the number of the string's kind behind `kind`. Refuses with Length (1) if no kind has that length.
#[unsafe(no_mangle)]
pub extern "C" fn radio_clock_kind(s: &[u8], kind: &mut u8) -> u8
    ensures { called result kind.new ≡ called_answer kind.old (kind_number_of s.now) }
{
    c_readings::strings::radio_clock_kind(s, kind)
}

// Reads a string of the kind that a number names into the first of the numbers lent. Refuses with Length (1) if it
// names none, as the kind's reader does, then with LentMemory (20) if there is no room.
#[unsafe(no_mangle)]
pub extern "C" fn radio_clock_read(kind: u8, s: &[u8], fields: &mut [i32]) -> u8
    ensures { called result fields.new ≡ called_memory (read_into kind s.now fields.old) }
{
    c_readings::strings::radio_clock_read(kind, s, fields)
}

// Writes numbers as a string of the kind that a number names to the front of `out`, with its length behind `written`.
// Refuses with Length (1) if it names none, with Unrepresentable (23) if no such string is read as the numbers, then
// with LentMemory (20) if there is no room.
#[unsafe(no_mangle)]
pub extern "C" fn radio_clock_write(
    kind: u8,
    fields: &[i32],
    out: &mut [u8],
    written: &mut usize,
) -> u8
    ensures { called result (out.new, written.new)
        ≡ called_both written.old (write_from kind fields.now out.old) }
{
    c_readings::strings::radio_clock_write(kind, fields, out, written)
}

// Reads a Trimble SV6 string into the first 15 of the numbers lent. Refuses as its reader does, then with LentMemory
// (20) if there is no room.
#[unsafe(no_mangle)]
pub extern "C" fn radio_clock_read_trimble(s: &[u8], fields: &mut [i32]) -> u8
    ensures { called result fields.new ≡ called_memory (read_trimble_into s.now fields.old) }
{
    c_readings::trimble::radio_clock_read_trimble(s, fields)
}

// Reads a run of marks into the first 16 of the numbers lent. Refuses as the minute's reader does, then with LentMemory
// (20) if there is no room.
#[unsafe(no_mangle)]
pub extern "C" fn radio_clock_read_minute(marks: &[u8], fields: &mut [i32]) -> u8
    ensures { called result fields.new ≡ called_memory (read_minute_into marks.now fields.old) }
{
    c_readings::minutes::radio_clock_read_minute(marks, fields)
}

// Writes numbers as a run of marks to the front of `out`, with their count behind `written`. Refuses with
// Unrepresentable (23) if no run is read as the numbers, then with LentMemory (20) if there is no room.
#[unsafe(no_mangle)]
pub extern "C" fn radio_clock_write_minute(
    fields: &[i32],
    out: &mut [u8],
    written: &mut usize,
) -> u8
    ensures { called result (out.new, written.new)
        ≡ called_both written.old (write_minute_from fields.now out.old) }
{
    c_readings::minutes::radio_clock_write_minute(fields, out, written)
}

// Leaves the Unix time of the first 14 numbers behind `time`. Refuses with Unrepresentable (23) if they are no valid
// reading.
#[unsafe(no_mangle)]
pub extern "C" fn radio_clock_unix_time(fields: &[i32], time: &mut i64) -> u8
    ensures { called result time.new ≡ called_answer time.old (unix_time_of fields.now) }
{
    c_readings::instant::radio_clock_unix_time(fields, time)
}

// Takes bytes of `s` up to its end, to `limit` bytes, or to just after the first string, and leaves the state, how many
// it took and what the last of them ended. Refuses with LentMemory (20) if the state has fewer than 68 bytes.
#[unsafe(no_mangle)]
pub extern "C" fn radio_clock_feed(
    state: &mut [u8],
    s: &[u8],
    limit: usize,
    taken: &mut usize,
    event: &mut u8,
) -> u8
    ensures { called result (feed_memory state.new taken.new event.new)
        ≡ called_memory
        (feed_into (feed_memory state.old taken.old event.old) s.now limit) }
{
    c_readings::feed::radio_clock_feed(state, s, limit, taken, event)
}
