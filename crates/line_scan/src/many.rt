// The words to the end of a line as a list of numbers, into a lent buffer.
ghost use Rattle.std.specs.Prelude.{ℕ, ◌≤◌, List, Option, length};
ghost use Rattle.std.specs.Fn.{FnReturnsAt};
ghost use Rattle.line_words.specs.Words.{words_after};
ghost use Rattle.line_number.specs.Numbers.{number_read, vote_read};
ghost use Rattle.line_scan.specs.Lists.{Listed, Reads};

use crate::step::next_word;
use line_number::{read_number, read_vote};

// The value of each word, and how many there are; none where some word has no value or they are more than the list holds. The count stands beside the
// list, since the memory is lent.
fn read_list<T: Copy, F: Fn(&[u8]) -> Option<T>>(
    line: &[u8],
    start: usize,
    list: &mut [T],
    read: F,
) -> Option<usize>
    requires within { start ≤ length line.now }
    requires callable { F.IsAlwaysCallable read }
    ensures { (reader : List ℕ → Option T) → Reads (FnReturnsAt F.Fn read) reader → Listed reader (length list.old) (words_after line.now start) list.old result list.new }
{
    let mut at = start;
    let mut count = 0;
    while let Some((word, end)) = next_word(line, at) {
        if list.len() <= count {
            return None;
        }
        list[count] = read(word)?;
        count += 1;
        at = end;
    }
    Some(count)
}

// As many numbers as the buffer holds, each within the limit.
pub fn read_numbers(line: &[u8], start: usize, most: u64, numbers: &mut [u64]) -> Option<usize>
    requires { (start ≤ length line.now) × (9 ≤ most) }
    ensures { Listed (number_read most) (length numbers.old) (words_after line.now start) numbers.old result numbers.new }
{
    read_list(line, start, numbers, |word| read_number(word, most))
}

// As many votes as the buffer holds.
pub fn read_votes(line: &[u8], start: usize, votes: &mut [u8]) -> Option<usize>
    requires { start ≤ length line.now }
    ensures { Listed vote_read (length votes.old) (words_after line.now start) votes.old result votes.new }
{
    read_list(line, start, votes, read_vote)
}
