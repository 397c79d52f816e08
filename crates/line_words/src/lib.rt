// The words of a line: where the first of them ends.
#![tactic(auto)]

ghost use Rattle.std.specs.Prelude.{◌≡◌, ◌≤◌, ◌==◌, length};
ghost use Rattle.std.specs.List.{position_or_len};
ghost use Rattle.line_words.specs.Words.{word_end};

// Where a byte stands first, or the end.
pub fn find_byte(text: &[u8], byte: u8) -> usize
    ensures { (result ≡ position_or_len (λ b. b == byte) text.now) × (result ≤ length text.now) }
{
    text.iter().position(|b| *b == byte).unwrap_or(text.len())
}

// At the first space, or with the line.
pub fn word_end(line: &[u8]) -> usize
    ensures { result ≡ word_end line.now }
{
    find_byte(line, b' ')
}
