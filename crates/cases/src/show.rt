// Writing to standard output.
use crate::Done;
use std::io::{Print, Stdout};
use terms::answer::Answer;

pub(crate) fn text(to: Stdout, bytes: &[u8]) {
    let _ = to.write_all(bytes);
}

// The first n bytes.
fn start(to: Stdout, bytes: &[u8], n: usize) {
    if n <= bytes.len() {
        text(to, &bytes[..n]);
    }
}

// A value, which may be below zero, and the end of the line.
fn value(to: Stdout, v: i64) {
    let mut out = [0u8; 32];
    let end = text_print::put_reading(&mut out, 0, Ok(v));
    start(to, &out, end);
}

// A text, the number and the value that a call gave back, and the end of the line.
fn answer(to: Stdout, before: &[u8], a: Answer) {
    text(to, before);
    let _ = to.print(terms::answer::number(a));
    text(to, b" ");
    value(to, terms::answer::value(a));
}

fn count(to: Stdout, n: u64) {
    text(to, b" -> ");
    let _ = to.print(n);
    text(to, b" taken\n");
}

// What a line did, after the line itself.
pub(crate) fn done(to: Stdout, is_same: bool, what: Done) {
    match what {
        Done::Gave(a) => {
            if is_same {
                answer(to, b" -> kept ", a);
            } else {
                answer(to, b" -> moved ", a);
            }
        }
        Done::Asked(a) => answer(to, b" -> ", a),
        Done::Many(n) => count(to, n),
        Done::Nothing => text(to, b"\n"),
    }
}
