// Lists the strings on standard input or in a file: a heading, a line for each string, and the totals. The lines of
// what has come are written after each read. A failure to read or write is told on standard error.
#![tactic(auto)]

mod output;
mod request;

ghost use Rattle.std.specs.Prelude.{◌≡◌};
ghost use Rattle.clock_time.specs.Lists.{ascii};
ghost use Rattle.listing_lines.specs.Totals.{totals_line};
ghost use Rattle.listing.specs.Listing.{text_of};
ghost use Rattle.list_times.specs.Progress.{IsPrefixLen, Takes, ListsAll, Reaches};

use listing::Listing;
use request::Request;
use std::env::FillError;
use std::fs::{File, OpenOptions};
use std::io::{Error, Read, Write};
use std::rt::{Env, Files};
use std::{io, str};

// The system's numbers of two errors: a name that is too long, and bytes that are no text.
const ENAMETOOLONG: i32 = 36;

const EILSEQ: i32 = 84;

// Writes the heading.
// Here and below a `requires` says what is written; a type would say it in ghost fields alone.
fn write_heading(rt: &HostRuntime, text: &[u8]) -> io::Result<()>
    requires { text.now ≡ ascii "time zone flags\n" }
{
    rt.stdout().write_all(text)
}

// Writes the text of the bytes s after `listing`. Of these two only the `requires` speaks.
fn write_text(rt: &HostRuntime, listing: Listing, s: &[u8], text: &[u8]) -> io::Result<()>
    requires { text.now ≡ text_of listing s.now }
{
    rt.stdout().write_all(text)
}

// Writes the line of the totals of `end`. Of `end` only the `requires` speaks.
fn write_last(rt: &HostRuntime, end: Listing, text: &[u8]) -> io::Result<()>
    requires { text.now ≡ totals_line end.totals }
{
    rt.stdout().write_all(text)
}

// Takes bytes of s, as many as `out` has room for, and writes their text. Answers how many they are.
fn write_part(
    rt: &HostRuntime,
    listing: &mut Listing,
    s: &[u8],
    out: &mut [u8; 65536],
) -> io::Result<usize>
    ensures { Takes listing.old s.now listing.new result }
{
    let before = *listing;
    let listed = before.list(s, out);
    let taken = listed.taken;
    *listing = listed.listing;
    write_text(rt, before, &s[..taken], &out[..listed.length])?;
    Ok(taken)
}

// Writes the lines of the bytes s, as long as writing does not fail.
fn write_lines(
    rt: &HostRuntime,
    listing: &mut Listing,
    s: &[u8],
    out: &mut [u8; 65536],
) -> io::Result<()>
    ensures { ListsAll listing.old s.now listing.new result }
{
    let mut rest = s;
    while !rest.is_empty() {
        let taken = write_part(rt, listing, rest, out)?;
        rest = &rest[taken..];
    }
    Ok(())
}

// Reads once from the input, and answers how many bytes came: none at the input's end, and if the read fails, which it
// says by the input's name: the listing ends either way.
fn read_some<I: Read>(rt: &HostRuntime, input: &mut I, name: &[u8], buf: &mut [u8; 65536]) -> usize
    ensures { IsPrefixLen result buf.new }
{
    match input.read(buf) {
        Ok(n) => n,
        Err(error) => {
            output::fail(rt, name, &error);
            0
        }
    }
}

// Reads the input to its end and writes the lines of what comes, as long as writing does not fail. A proved loop has to
// end, and nothing says that the input does. So the loop has a number of turns that no run uses up.
// In fixed memory. The name is only what is told of the input.
fn list_input<I: Read>(
    rt: &HostRuntime,
    input: &mut I,
    name: &[u8],
    listing: &mut Listing,
) -> io::Result<()>
    ensures { Reaches listing.old listing.new }
{
    let mut buf = [0u8; 65536];
    let mut out = [0u8; 65536];
    for _ in 0..u64::MAX {
        let n = read_some(rt, input, name, &mut buf);
        if n == 0 {
            break;
        }
        write_lines(rt, listing, &buf[..n], &mut out)?;
    }
    Ok(())
}

// Writes the line of the totals of `end`.
fn write_totals(rt: &HostRuntime, end: Listing) -> io::Result<()> {
    let mut text = [0u8; 86];
    match listing_lines::write_totals(end.totals, &mut text) {
        Ok(n) => write_last(rt, end, &text[..n]),
        Err(_) => Ok(()),
    }
}

// Lists what comes from the input.
fn list<I: Read>(rt: &HostRuntime, input: &mut I, name: &[u8]) -> io::Result<()> {
    write_heading(rt, b"time zone flags\n")?;
    let mut listing = Listing::new();
    list_input(rt, input, name, &mut listing)?;
    write_totals(rt, listing)
}

// Lists standard input.
fn list_standard_input(rt: &HostRuntime) -> io::Result<()> {
    let mut input = rt.stdin();
    output::tell_terminal(rt, &input, b"standard input", b"/dev/ttyS0");
    list(rt, &mut input, b"standard input")
}

// Opens the file at path. The library takes text alone for a path, so one that is not UTF-8 is refused.
fn open(rt: &HostRuntime, path: &[u8]) -> io::Result<File> {
    let path = str::from_utf8(path).map_err(|_| Error::from_raw_os_error(EILSEQ))?;
    rt.open_file(OpenOptions::new().read(true), path)
}

// Lists the file at path, or says why it can't be opened.
fn list_file(rt: &HostRuntime, path: &[u8]) -> io::Result<()> {
    match open(rt, path) {
        Ok(mut file) => {
            output::tell_terminal(rt, &file, path, path);
            list(rt, &mut file, path)
        }
        Err(error) => {
            output::fail(rt, path, &error);
            Ok(())
        }
    }
}

// How many arguments there are, the program's name among them.
fn count_arguments(rt: &HostRuntime) -> usize {
    let mut space = [0u8; 1];
    for i in 0..usize::MAX {
        if let Err(FillError::NotPresent) = rt.arg(i, &mut space) {
            return i;
        }
    }
    usize::MAX
}

// Does what the arguments ask for, of which the first after the program's name is `first`, or empty if there is none.
// Fails if standard output does.
fn answer(rt: &HostRuntime, first: &[u8]) -> io::Result<()> {
    match request::read_request(count_arguments(rt), first) {
        Request::ListInput => list_standard_input(rt),
        Request::ListFile => list_file(rt, first),
        Request::Help => output::write_help(rt),
        Request::Version => output::write_version(rt),
        Request::Misused => {
            output::tell_usage(rt);
            Ok(())
        }
    }
}

fn serve(rt: &HostRuntime, first: &[u8]) {
    if let Err(error) = answer(rt, first) {
        output::fail(rt, b"standard output", &error);
    }
}

fn main(rt: HostRuntime) {
    let mut first = [0u8; 4096];
    match rt.arg(1, &mut first) {
        Ok(n) => serve(&rt, &first[..n]),
        Err(FillError::NotPresent) => serve(&rt, b""),
        Err(FillError::TooLong) => {
            output::tell_error(&rt, b"list_times", &Error::from_raw_os_error(ENAMETOOLONG));
        }
    }
}
