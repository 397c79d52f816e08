// The next word of a line, read at the place where the word before it ends.
ghost use Rattle.std.specs.Prelude.{◌≡◌, ◌≤◌, ◌<◌, length};
ghost use Rattle.std.specs.Option.{MatchOption};
ghost use Rattle.line_number.specs.Numbers.{number_read};
ghost use Rattle.line_scan.specs.Steps.{end_after, step_of, word_after};

use line_number::read_number;
use line_words::word_end;

// The next word and where it ends, where there is one: the word before it ends at a space.
pub(crate) fn next_word(line: &[u8], at: usize) -> Option<(&[u8], usize)>
    ensures { MatchOption result
        (length line.now ≤ at)
        (λ next. (at < length line.now) × (next.0.now ≡ word_after line.now at) × (next.1 ≡ end_after line.now at) × (next.1 ≤ length line.now)) }
{
    if line.len() <= at {
        return None;
    }
    let rest = &line[at + 1..];
    let len = word_end(rest);
    Some((&rest[..len], at + 1 + len))
}

// The value of the next word and where it ends, where there is one and it is a number within the limit.
pub fn next_number(line: &[u8], at: usize, most: u64) -> Option<(u64, usize)>
    requires { 9 ≤ most }
    ensures { result ≡ step_of (number_read most) line.now at }
{
    let (word, end) = next_word(line, at)?;
    Some((read_number(word, most)?, end))
}
