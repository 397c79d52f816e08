// What follows the first word of a line, for each command.
ghost use Rattle.std.specs.Prelude.{◌≡◌, ◌≤◌, Some, None, length};
ghost use Rattle.line_words.specs.Words.{words_after};
ghost use Rattle.line_scan.specs.Lists.{parents_most, votes_most};
ghost use Rattle.line_parse.specs.Line.{
  AllShort,
  BookRead,
  PollRead,
  book_says,
  nothing,
  open_says,
  poll_says,
  read_says,
  setting_or,
};

use crate::command::Command;
use line_scan::many::{read_numbers, read_votes};
use line_scan::step::next_number;
use terms::answer::Reading;
use terms::setting::Setting;

// The largest name.
const NAME_MOST: u64 = u64::MAX;

// The largest number of everything but names and votes.
const SHORT_MOST: u64 = u16::MAX as u64;

// The fewest numbers of `open`.
const OPEN_LEAST: usize = 4;

// The edition where no fifth number tells it: the later one.
const EDITION_UNTOLD: u64 = Setting::LATER_EDITION as u64;

// Five short numbers as a setting.
fn setting_of(five: &[u64; 5]) -> Setting
    requires { AllShort five.now }
    ensures { result ≡ setting_or 0 five.now }
{
    let [k, a, beta1, beta2, edition] = *five;
    Setting {
        k: k as u16,
        a: a as u16,
        beta1: beta1 as u16,
        beta2: beta2 as u16,
        edition: edition as u16,
    }
}

// k, a, beta1, beta2, and the edition where it is told.
pub(crate) fn read_open(line: &[u8], at: usize) -> Option<Command>
    requires { at ≤ length line.now }
    ensures { result ≡ open_says (words_after line.now at) }
{
    let mut five = [0, 0, 0, 0, EDITION_UNTOLD];
    let count = read_numbers(line, at, SHORT_MOST, &mut five)?;
    if count < OPEN_LEAST {
        return None;
    }
    Some(Command::Open(setting_of(&five)))
}

// One name.
pub(crate) fn read_reading(line: &[u8], at: usize, reading: Reading) -> Option<Command>
    ensures { result ≡ read_says reading (words_after line.now at) }
{
    let (name, end) = next_number(line, at, NAME_MOST)?;
    if end < line.len() {
        return None;
    }
    Some(Command::Read { reading, name })
}

// A name, a slot and the parents.
pub(crate) fn read_book(line: &[u8], at: usize, parents: &mut [u64]) -> Option<Command>
    requires { length parents.old ≡ parents_most }
    ensures { BookRead (book_says (words_after line.now at)) parents.old result parents.new }
{
    let (name, after_name) = next_number(line, at, NAME_MOST)?;
    let (slot, after_slot) = next_number(line, after_name, SHORT_MOST)?;
    let slot = slot as u16;
    let count = read_numbers(line, after_slot, NAME_MOST, parents)?;
    Some(Command::Book { name, slot, count })
}

// A name and the votes.
pub(crate) fn read_poll(line: &[u8], at: usize, votes: &mut [u8]) -> Option<Command>
    requires { length votes.old ≡ votes_most }
    ensures { PollRead (poll_says (words_after line.now at)) votes.old result votes.new }
{
    let (name, end) = next_number(line, at, NAME_MOST)?;
    let count = read_votes(line, end, votes)?;
    Some(Command::Poll { name, count })
}

// Nothing.
pub(crate) fn read_list(line: &[u8], at: usize) -> Option<Command>
    ensures { result ≡ nothing None (words_after line.now at) (Some Command.List) }
{
    if at < line.len() {
        return None;
    }
    Some(Command::List)
}
