// What the program writes to standard output and to standard error, if it is not a line of the listing.
use std::io::{Error, IsTerminal, Write};
use std::{io, str};

// Writes text to standard error, as far as that can be written.
fn tell(rt: &HostRuntime, text: &[u8]) {
    let _ = rt.stderr().write_all(text);
}

// Says on standard error what failed, as the caller names it, and why: the system's text for the error. The library
// writes its number after it, ` (os error 2)`, which is left out.
pub(crate) fn tell_error(rt: &HostRuntime, what: &[u8], error: &Error) {
    let mut space = [0u8; 256];
    let mut rest = &mut space[..];
    let _ = write!(rest, "{error}");
    let n = 256usize.saturating_sub(rest.len());
    let text = str::from_utf8(&space[..n]).unwrap_or("");
    let why = text.split_once(" (os error ").map_or(text, |(why, _)| why);
    tell(rt, what);
    tell(rt, b": ");
    tell(rt, why.as_bytes());
    tell(rt, b"\n");
}

// Says on standard error what failed, as the caller names it, with the error's text.
pub(crate) fn fail(rt: &HostRuntime, what: &[u8], error: &Error) {
    tell(rt, b"list_times: ");
    tell_error(rt, what, error);
}

// Writes the version, which include/radio_clock.h has too.
pub(crate) fn write_version(rt: &HostRuntime) -> io::Result<()> {
    rt.stdout().write_all(b"list_times 0.2.1\n")
}

// Writes how the program is used.
pub(crate) fn write_help(rt: &HostRuntime) -> io::Result<()> {
    rt.stdout().write_all(
        b"usage: list_times [FILE]\n\
          \x20      list_times --help | --version\n\
          \n\
          Lists the time strings of Meinberg receivers in FILE, or on standard input if there is\n\
          no FILE or it is -. After a heading each string has its line as soon as it has come:\n\
          \n\
          \x20 2006-11-08 14:39:39 +01:00 -------  local time, its offset from UTC, and flags\n\
          \x20 refused N                           a string that breaks a rule\n\
          \x20 dropped                             a string of more than 66 bytes\n\
          \n\
          The flags are #*S!ARL: unsynchronised, unverified, summer time, change of summer time\n\
          announced, leap second announced, alternate antenna, second 60; a dash stands for none.\n\
          N says what is wrong: 1 length, 2 fixed byte, 3 digit, 4 flag, 5 date, 6 time of day,\n\
          7 weekday, 8 offset from UTC, 9 position. The last line has the totals. ELV and Trimble\n\
          strings and DCF77 marks are not listed.\n\
          \n\
          A serial line must be raw, or its strings are lost. Set it first, with the speed and the\n\
          parity of the receiver:\n\
          \n\
          \x20 stty -F /dev/ttyS0 9600 raw -echo && list_times /dev/ttyS0\n",
    )
}

// Tells on standard error how the program is used, in a line.
pub(crate) fn tell_usage(rt: &HostRuntime) {
    tell(rt, b"usage: list_times [FILE | - | --help | --version]\n");
}

// If the input is a terminal, says on standard error that it must be raw: `name` says which it is, `line` is its file.
// Whether it is raw can't be asked, so this is said of every terminal.
pub(crate) fn tell_terminal<I: IsTerminal>(rt: &HostRuntime, input: &I, name: &[u8], line: &[u8]) {
    if input.is_terminal() {
        tell(rt, b"list_times: ");
        tell(rt, name);
        tell(
            rt,
            b" is a terminal: it must be raw, or its strings are lost (stty -F ",
        );
        tell(rt, line);
        tell(rt, b" 9600 raw -echo)\n");
    }
}
