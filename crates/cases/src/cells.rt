// The index: its calls, and cells changed behind their back.
use crate::{Done, Words, change};

// Where the word after `index ` starts.
const KEYWORD: usize = 6;

// The words are lent to be read, so a call can move cells alone.
fn call(first: u8, name: u64, w: &[u16], cells: &mut [u16]) -> Done {
    match first {
        b'b' => Done::Gave(index::build(w, cells)),
        b'e' => Done::Gave(index::enter(w, cells)),
        _ => Done::Gave(index::find(w, cells, name)),
    }
}

// On the first cells of all.
fn lent_call(first: u8, count: usize, name: u64, w: &[u16], cells: &mut [u16]) -> Done {
    if count <= cells.len() {
        call(first, name, w, &mut cells[..count])
    } else {
        Done::Nothing
    }
}

// `build n`, `enter n`, `find n name`, `cell c v` or `all v`.
fn obey(part: &[u8], first: u8, w: &[u16], cells: &mut Words) -> Done {
    let ns = change::numbers(part, u64::MAX);
    match first {
        b'c' => change::set(cells, change::small(ns[0]), change::short(ns[1])),
        b'a' => *cells = [change::short(ns[0]); crate::LONG],
        _ => return lent_call(first, change::small(ns[0]), ns[1], w, cells),
    }
    Done::Nothing
}

pub(crate) fn work(line: &[u8], w: &[u16], cells: &mut Words) -> Done {
    if KEYWORD < line.len() {
        obey(&line[KEYWORD..], line[KEYWORD], w, cells)
    } else {
        Done::Nothing
    }
}
