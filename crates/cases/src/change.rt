// Words changed behind the ledger's back.
ghost use Rattle.std.specs.Prelude.{◌≤◌, ◌<◌};

use crate::Done;
use rules::layout;

// No row, no field and no word is above it.
const MOST: u64 = u16::MAX as u64;

// The numbers after the first word of a line, each within the limit, and zeros.
pub(crate) fn numbers(line: &[u8], most: u64) -> [u64; 3]
    requires { 9 ≤ most }
{
    let mut ns = [0u64; 3];
    let end = line_words::word_end(line);
    if end <= line.len() {
        let _ = line_scan::many::read_numbers(line, end, most, &mut ns);
    }
    ns
}

pub(crate) fn small(n: u64) -> usize
    ensures { result < 65536 }
{
    usize::from(short(n))
}

pub(crate) fn short(n: u64) -> u16 {
    u16::try_from(n).unwrap_or(0)
}

// Where the word of `header f v`, `record i f v` or `entry s f v` stands.
fn place(first: u8, ns: [u64; 3]) -> usize {
    let a = small(ns[0]);
    let b = small(ns[1]);
    match first {
        b'h' => a,
        b'r' => layout::HEADER_WORDS + layout::RECORD_WORDS * a + b,
        _ => layout::SLOTS_START + layout::SLOT_WORDS * a + b,
    }
}

// And what it becomes.
fn value(first: u8, ns: [u64; 3]) -> u16 {
    if first == b'h' {
        short(ns[1])
    } else {
        short(ns[2])
    }
}

fn get(w: &[u16], at: usize) -> u16 {
    w.get(at).copied().unwrap_or(0)
}

pub(crate) fn set(w: &mut [u16], at: usize, v: u16) {
    if let Some(word) = w.get_mut(at) {
        *word = v;
    }
}

// For good; or, with a rule to show, while the size of the booking with name 4 is asked for.
pub(crate) fn change(line: &[u8], first: u8, has_rule: bool, w: &mut [u16]) -> Done {
    let ns = numbers(line, MOST);
    let at = place(first, ns);
    let was = get(w, at);
    set(w, at, value(first, ns));
    if has_rule {
        let answer = ledger::size(w, 4);
        set(w, at, was);
        return Done::Asked(answer);
    }
    Done::Nothing
}
