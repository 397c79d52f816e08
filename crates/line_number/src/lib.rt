// A word as a number or as a vote.
#![tactic(auto)]

ghost use Rattle.std.specs.Prelude.{◌≡◌, ◌≤◌};
ghost use Rattle.line_number.specs.Numbers.{more_of, number_read, vote_read};

// The most digits of a number.
const DIGITS_MOST: usize = 20;

// The limits of a vote, without a minus sign and with one.
const VOTE_MOST: u64 = 127;

const MINUS_MOST: u64 = 128;

// The value with one digit more, where the byte is a digit and the value stays within the limit.
fn more(value: u64, byte: u8, most: u64) -> Option<u64>
    requires { (value ≤ most) × (9 ≤ most) }
    ensures { result ≡ more_of most value byte }
{
    if !byte.is_ascii_digit() {
        return None;
    }
    let next = value.checked_mul(10)?.checked_add(u64::from(byte - b'0'))?;
    if next <= most { Some(next) } else { None }
}

// One to twenty digits, and a value within the limit.
pub fn read_number(word: &[u8], most: u64) -> Option<u64>
    requires { 9 ≤ most }
    ensures { result ≡ number_read most word.now }
{
    if word.is_empty() || DIGITS_MOST < word.len() {
        return None;
    }
    let mut value = 0;
    for byte in word {
        value = more(value, *byte, most)?;
    }
    Some(value)
}

// From -128 to 127, as its byte: two's complement below zero, and -0 is 0.
pub fn read_vote(word: &[u8]) -> Option<u8>
    ensures { result ≡ vote_read word.now }
{
    let Some(digits) = word.strip_prefix(b"-") else {
        let size = read_number(word, VOTE_MOST)?;
        return Some(size as u8);
    };
    let size = read_number(digits, MINUS_MOST)?;
    Some((size as u8).wrapping_neg())
}
