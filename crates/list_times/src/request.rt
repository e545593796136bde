// What the program's arguments ask for.
ghost use Rattle.std.specs.Prelude.{◌≡◌};
ghost use Rattle.list_times.specs.Request.{read_argument, read_request};

// What to do: list standard input, list the file that is named, tell how the program is used, tell its version, or say
// that the arguments are none of these.
// Nothing compares or prints it.
#[derive(Clone, Copy)]
pub(crate) enum Request {
    ListInput,
    ListFile,
    Help,
    Version,
    Misused,
}

// What one argument asks for. The empty one names no file, nor does one that begins with a dash. Texts are compared by
// `==`: patterns of bytes were tried, and left 39 goals, of which `search` did not prove enough.
fn read_argument(s: &[u8]) -> Request
    ensures { result ≡ read_argument s.now }
{
    if s == b"-".as_slice() {
        Request::ListInput
    } else if s == b"--help".as_slice() {
        Request::Help
    } else if s == b"--version".as_slice() {
        Request::Version
    } else {
        match s {
            [] | [b'-', ..] => Request::Misused,
            _ => Request::ListFile,
        }
    }
}

// What the arguments ask for: `count` of them, the program's name among them, the first after the name being s.
pub(crate) fn read_request(count: usize, s: &[u8]) -> Request
    ensures { result ≡ read_request count s.now }
{
    match count {
        0 | 1 => Request::ListInput,
        2 => read_argument(s),
        _ => Request::Misused,
    }
}
