// Runs a table of commands: writes each line of standard input with what the library answers. A command is a word, then
// numbers, each after a blank, and perhaps a text, after a colon and a blank. Headings, which start with `#`, and empty
// lines are only copied.
#![tactic(auto)]

ghost use Rattle.std.specs.Prelude.{◌≤◌, length};

mod commands;
mod dates;
mod day;
mod digit_run;
mod digits;
mod output;
mod recordings;
mod refusal;
mod strings;
mod text;

use commands::Command;
use recordings::Recording;
use std::io::Read;
use text::{MOST_BYTES, first};

// As much of a table is read.
const LONGEST: usize = 1048576;

// So many numbers of a command count.
const MOST_NUMBERS: usize = 23;

// Puts the answer to a command whose text is s.
fn put_command(rt: &impl Print, recording: &mut Recording, command: Command<'_>, s: &[u8]) {
    match command {
        Command::Error(place) => output::put(rt, dates::error_number(place)),
        Command::Leap(year) => output::put_truth(rt, dates::is_leap_year(year)),
        Command::Year(digits) => output::put(rt, dates::full_year(digits)),
        Command::Month(year, month) => output::put(rt, dates::days_in_month(year, month)),
        Command::Date(date) => output::put_truth(rt, dates::date_exists(date)),
        Command::Day(date) => output::put_result(rt, dates::day_number(date)),
        Command::Weekday(date) => output::put_result(rt, dates::weekday_of(date)),
        Command::Time(hour, minute, second, offset) => {
            output::put_truth(rt, dates::time_exists(hour, minute, second, offset))
        }
        Command::Unix(fields) => output::put_result(rt, strings::unix_time(&fields)),
        Command::Read(kind) => strings::put_read(rt, kind, s),
        Command::Kind => strings::put_kind(rt, s),
        Command::Trimble => strings::put_trimble(rt, s),
        Command::Write(numbers) => strings::put_written(rt, numbers),
        Command::Digits => output::put_result(rt, digits::read(s)),
        Command::Number(number, count, room) => digits::put_written(rt, number, count, room),
        Command::Run => output::put(rt, dcf77_outcome::run_number(s)),
        Command::Outcome(outcome) => output::put_result(rt, recordings::unix_time(outcome)),
        Command::At(length, place) => {
            output::put_result(rt, recordings::outcome_at(recording, s, length, place))
        }
        Command::Fill(lent) => recordings::put_sheet(rt, recording, s, lent),
        Command::Correct(change, sheet) => recordings::put_corrected(
            rt, recording, s, change, sheet,
        ),
    }
}

// Puts the answer to a command with this text.
fn put_texted(rt: &impl Print, recording: &mut Recording, command: Command<'_>, shown: &[u8]) {
    let mut space = [0; MOST_BYTES];
    let s = text::decode(shown, command.base(), &mut space);
    put_command(rt, recording, command, s);
}

// Puts the answer to a line, a question mark if it is no command.
fn put_answer(rt: &impl Print, recording: &mut Recording, line: &[u8]) {
    let (head, shown) = text::parts(line);
    let mut words = head.split(|b| *b == b' ');
    let name = words.next().unwrap_or(b"");
    let mut space = [0; MOST_NUMBERS];
    let mut count = 0;
    for (i, (number, word)) in space.iter_mut().zip(words).enumerate() {
        *number = commands::number_of(word);
        count = i + 1;
    }
    match Command::parse(name, first(&space, count)) {
        Some(command) => put_texted(rt, recording, command, shown),
        None => output::put_bytes(rt, b" ?"),
    }
}

// Puts a line, and the answer to it.
fn put_line(rt: &impl Print, recording: &mut Recording, line: &[u8]) {
    output::put_bytes(rt, line);
    match line {
        [] | [0 | b'#', ..] => {}
        _ => {
            output::put_bytes(rt, b" =");
            put_answer(rt, recording, line);
        }
    }
    output::put_bytes(rt, b"\n");
}

// Reads until the space is full, the input ends or a read fails, and answers how many bytes came.
// Not `read_to_end`: the space is fixed, and what came before a read that fails counts.
fn read_full<I: Read>(input: &mut I, space: &mut [u8]) -> usize
    ensures { result ≤ length space.new }
{
    let mut done = 0;
    while done < space.len() {
        let n = input.read(&mut space[done..]).unwrap_or(0);
        if n == 0 {
            break;
        }
        done += n;
    }
    done
}

// Reads the table, as far as there is space, and puts each line with the answer to it.
// Behind a reference the array's length needs no proof; that of a local array so long finds none.
fn put_table<I: Read>(
    rt: &impl Print,
    recording: &mut Recording,
    input: &mut I,
    space: &mut [u8; LONGEST],
) {
    let n = read_full(input, space);
    for line in space[..n].split_inclusive(|b| *b == b'\n') {
        put_line(rt, recording, line.strip_suffix(b"\n").unwrap_or(line));
    }
}

fn main(rt: HostRuntime) {
    let mut space = [0; LONGEST];
    let mut recording = Recording {
        outcomes: [0; recordings::LENGTH],
        marks: [0; recordings::LENGTH],
    };
    put_table(&rt, &mut recording, &mut rt.stdin(), &mut space);
}
