// The word that begins a line.
#![tactic(auto)]

ghost use Rattle.std.specs.Prelude.{◌≡◌};
ghost use Rattle.line_keyword.specs.Keywords.{is_same, keyword_of, reading_word};

use terms::answer::Reading;

// What the first word of a line asks for. Unknown is one of them, and no None: who parses has an arm for each.
#[derive(Clone, Copy)]
pub enum Keyword {
    Open,
    Book,
    Poll,
    Read(Reading),
    List,
    Unknown,
}

// Whether two words have the same bytes.
#[tactic(auto, using(crate::proofs::Equal::eq_is_same))]
fn same(a: &[u8], b: &[u8]) -> bool
    ensures { result ≡ is_same a.now b.now }
{
    a == b
}

// The keyword of a reading.
fn read_reading(word: &[u8]) -> Keyword
    ensures { result ≡ reading_word word.now }
{
    if same(word, b"query") {
        Keyword::Read(Reading::Query)
    } else if same(word, b"accepted") {
        Keyword::Read(Reading::Accepted)
    } else if same(word, b"lead") {
        Keyword::Read(Reading::Lead)
    } else if same(word, b"confidence") {
        Keyword::Read(Reading::Confidence)
    } else if same(word, b"size") {
        Keyword::Read(Reading::Size)
    } else {
        Keyword::Unknown
    }
}

// The keyword, in lower case only.
pub fn read_keyword(word: &[u8]) -> Keyword
    ensures { result ≡ keyword_of word.now }
{
    if same(word, b"open") {
        Keyword::Open
    } else if same(word, b"book") {
        Keyword::Book
    } else if same(word, b"poll") {
        Keyword::Poll
    } else if same(word, b"list") {
        Keyword::List
    } else {
        read_reading(word)
    }
}
