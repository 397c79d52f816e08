// Runs the cases that are executed and not proved, through the public calls. The script is standard input, and a line of it is
//
//   # text            a title
//   open 3 2 1 2 | .. a call, in the words of the text program, and after the bar the rule that it shows
//   words n           the calls from here on are lent the first n words
//   note, undo        the words are noted, and put back as noted
//   header f v        word f of the header becomes v
//   record i f v      and so does a word of record i
//   entry s f v       and one of slot entry s
//   header f v | ..   the same, but only while the size of the booking with name 4 is asked for
//   fill, vote        510 bookings in a chain, and a poll of each of 511
//   index build n | .. a call with the first n cells of an index, and so are enter n and find n name
//   index cell c v    cell c becomes v
//   index all v       and so does every cell
//
// Each line is written again. A call's has its outcome after it: whether any word moved, or any cell by a call with an index,
// the number and the value.
#![tactic(auto)]

mod call;
mod cells;
mod change;
mod many;
mod show;

ghost use Rattle.std.specs.Prelude.{◌≤◌, length};

use line_scan::step::next_number;
use line_words::{find_byte, word_end};
use rules::layout;
use std::io::{Read, Stdin, Stdout};
use terms::answer::Answer;

// The words of a workspace, and one more.
const LONG: usize = layout::SIZE + 1;

type Words = [u16; LONG];

// What a line did: a call gave an answer, a reading was asked, so many calls were taken, or nothing that is told.
#[derive(Clone, Copy)]
pub enum Done {
    Gave(Answer),
    Asked(Answer),
    Many(u64),
    Nothing,
}

// A line up to the space before its bar.
fn command_end(line: &[u8]) -> usize
    ensures { result ≤ length line.now }
{
    let bar = find_byte(line, b'|');
    if bar < line.len() {
        bar.saturating_sub(1)
    } else {
        bar
    }
}

// What a line says, on the words lent.
fn work(line: &[u8], first: u8, has_rule: bool, w: &mut [u16]) -> Done {
    match first {
        b'#' => Done::Nothing,
        b'h' | b'r' | b'e' => change::change(line, first, has_rule, w),
        b'f' => Done::Many(many::fill(w)),
        b'v' => Done::Many(many::vote(w)),
        _ => call::call(line, w),
    }
}

// The same on the first words of all.
fn lent_work(line: &[u8], first: u8, w: &mut [u16], lent: usize) -> Done {
    let end = command_end(line);
    if lent <= w.len() {
        work(&line[..end], first, end < line.len(), &mut w[..lent])
    } else {
        Done::Nothing
    }
}

// The same for a line about the index.
fn lent_index(line: &[u8], w: &[u16], lent: usize, cells: &mut Words) -> Done {
    let end = command_end(line);
    if lent <= w.len() {
        cells::work(&line[..end], &w[..lent], cells)
    } else {
        Done::Nothing
    }
}

fn tell(to: Stdout, line: &[u8], first: u8, w: &mut Words, lent: usize) {
    let before = *w;
    let done = lent_work(line, first, w, lent);
    show::done(to, before == *w, done);
}

// The cells are the first of as many words as a ledger may be lent, so that one written past them is seen.
fn tell_index(to: Stdout, line: &[u8], w: &Words, lent: usize, cells: &mut Words) {
    let before = *cells;
    let done = lent_index(line, w, lent, cells);
    show::done(to, before == *cells, done);
}

// `words n`.
fn lend(line: &[u8]) -> usize {
    match next_number(line, word_end(line), LONG as u64) {
        Some((n, _)) => n as usize,
        None => 0,
    }
}

// Obeys a line, and answers how many words are lent from here on.
fn obey(
    to: Stdout,
    line: &[u8],
    w: &mut Words,
    noted: &mut Words,
    cells: &mut Words,
    lent: usize,
) -> usize {
    show::text(to, line);
    let Some(&first) = line.first() else {
        show::text(to, b"\n");
        return lent;
    };
    match first {
        b'w' => {
            show::text(to, b"\n");
            return lend(line);
        }
        b'n' => {
            show::text(to, b"\n");
            *noted = *w;
        }
        b'u' => {
            show::text(to, b"\n");
            *w = *noted;
        }
        b'i' => tell_index(to, line, w, lent, cells),
        _ => tell(to, line, first, w, lent),
    }
    lent
}

fn run(to: Stdout, script: &[u8]) {
    let mut w: Words = [0; LONG];
    let mut noted: Words = [0; LONG];
    let mut cells: Words = [0; LONG];
    let mut lent = layout::SIZE;
    let mut at = 0;
    while at < script.len() {
        let end = at + find_byte(&script[at..], b'\n');
        lent = obey(to, &script[at..end], &mut w, &mut noted, &mut cells, lent);
        at = end + 1;
    }
}

// Reads until the input ends, a read fails or the buffer is full, and answers how many bytes there are.
fn read_script(mut from: Stdin, script: &mut [u8]) -> usize
    ensures { result ≤ length script.old }
{
    let mut count = 0;
    while count < script.len() {
        match from.read(&mut script[count..]) {
            Ok(0) | Err(_) => break,
            Ok(more) => count += more,
        }
    }
    count
}

fn main(rt: HostRuntime) {
    let mut script = [0u8; 65536];
    let n = read_script(rt.stdin(), &mut script);
    run(rt.stdout(), &script[..n]);
}
