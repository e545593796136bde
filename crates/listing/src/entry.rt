// What is listed of a string.
ghost use Rattle.std.specs.Prelude.{◌≡◌};
ghost use Rattle.clock_time.specs.Reading.{answer_of};
ghost use Rattle.listing.specs.Items.{read_string, string, item_of, Within, entry_item, item_line, counted};

use arrayvec::ArrayVec;
use clock_time::{ClockTime, Error};
use framing::Event;
use itoa::Buffer;
use listing_lines::{Totals, line};

// The length of a clock time's line: no other is longer.
pub(crate) const LONGEST: usize = 35;

// A line of text, its line feed included.
pub(crate) type Line = ArrayVec<u8, LONGEST>;

// What an event of the feed brings to the listing: nothing, a string as it was read, or an overlong string dropped.
// It has the cases of `Event` one by one.
#[derive(Clone, Copy)]
pub(crate) enum Entry {
    Nothing,
    String(Result<ClockTime, Error>),
    Dropped,
}

// Reads a string as the kind that its bytes tell.
fn read_string(s: &[u8]) -> Result<ClockTime, Error>
    ensures { answer_of result ≡ read_string s.now }
{
    let kind = time_string::kind_of(s)?;
    let reading = time_string::read(kind, s)?;
    Ok(reading.time())
}

// The entry of an event; `bytes` are those of the state after it.
pub(crate) fn entry_at(bytes: &[u8], event: Event) -> Entry
    requires { Within event bytes.now }
    ensures { entry_item result ≡ item_of bytes.now event }
{
    match event {
        Event::Nothing => Entry::Nothing,
        Event::Complete(n) => Entry::String(read_string(&bytes[..n])),
        Event::Dropped => Entry::Dropped,
    }
}

// The totals with one entry more.
pub(crate) fn count(t: Totals, entry: Entry) -> Totals
    ensures { result ≡ counted t (entry_item entry) }
{
    match entry {
        Entry::Nothing => t,
        Entry::String(answer) => Totals {
            frames: t.frames.wrapping_add(1),
            refused: t.refused.wrapping_add(u64::from(answer.is_err())),
            ..t
        },
        Entry::Dropped => Totals {
            dropped: t.dropped.wrapping_add(1),
            ..t
        },
    }
}

// The line of a string, as it was read.
fn string_line(answer: Result<ClockTime, Error>) -> Line
    ensures { result.items ≡ item_line (string (answer_of answer)) }
{
    let mut line = Line::new();
    match answer {
        Ok(t) => line.try_extend_from_slice(&line::time_line(t)).unwrap(),
        Err(e) => {
            line.try_extend_from_slice(b"refused ").unwrap();
            let mut number = Buffer::new();
            line.try_extend_from_slice(number.format(u8::from(e)).as_bytes())
                .unwrap();
            line.push(b'\n');
        }
    }
    line
}

// The line of an entry, empty if there is nothing to say.
pub(crate) fn entry_line(entry: Entry) -> Line
    ensures { result.items ≡ item_line (entry_item entry) }
{
    match entry {
        Entry::Nothing => Line::new(),
        Entry::String(answer) => string_line(answer),
        Entry::Dropped => {
            let mut line = Line::new();
            line.try_extend_from_slice(b"dropped\n").unwrap();
            line
        }
    }
}
