// The commands on runs of digits: `digits` reads one, `number` writes one into a lent buffer.
use crate::refusal::Refusal;
use crate::{digit_run, output};

// The number that the digits s are.
pub fn read(s: &[u8]) -> Result<u64, Refusal> {
    Ok(digit_run::read_digits(s)?)
}

// Writes into the first `room` bytes of the space; none if it has fewer.
// 0 is what is printed then: the room comes from the line and may be more than there is.
fn write(number: u64, count: usize, space: &mut [u8], room: usize) -> Result<usize, Refusal> {
    let Some(lent) = space.get_mut(..room) else {
        return Ok(0);
    };
    Ok(digit_run::write_digits(number, count, lent)?)
}

// Puts how many digits are written, and the buffer.
pub fn put_written(rt: &impl Print, number: u64, count: usize, room: usize) {
    let mut space = output::EMPTY;
    output::put_result(rt, write(number, count, &mut space, room));
    output::put_text(rt, &space, room, 0);
}
