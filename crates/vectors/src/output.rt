// Answers to standard output. A write that fails is left out, and the next is tried.
use crate::refusal::Refusal;
use std::fmt::Display;

// A buffer that is lent, before it is written to.
// Lent as C lends it, in fixed memory.
pub const EMPTY: [u8; 256] = [b'.'; 256];

pub fn put_bytes(rt: &impl Print, s: &[u8]) {
    let _ = rt.write_all(s);
}

// Puts a number or a refusal, after a blank.
pub fn put(rt: &impl Print, answer: impl Display + Drop) {
    let _ = print!(rt; " {answer}");
}

// Puts 1 if a thing is true, else 0.
pub fn put_truth(rt: &impl Print, is_true: bool) {
    put(rt, u8::from(is_true));
}

// Puts what a call left, or its refusal.
pub fn put_result<T: Display + Drop>(rt: &impl Print, left: Result<T, Refusal>) {
    match left {
        Ok(answer) => put(rt, answer),
        Err(refusal) => put(rt, refusal),
    }
}

fn put_byte(rt: &impl Print, b: u8) {
    match b {
        b'%' | 0..=31 | 127..=255 => {
            let _ = print!(rt; "%{b:02x}");
        }
        _ => put_bytes(rt, &[b]),
    }
}

// Puts the first bytes of a lent buffer as text, between bars, each with `base` added.
pub fn put_text(rt: &impl Print, lent: &[u8], room: usize, base: u8) {
    put_bytes(rt, b" |");
    for b in lent.iter().take(room) {
        put_byte(rt, b.wrapping_add(base));
    }
    put_bytes(rt, b"|");
}
