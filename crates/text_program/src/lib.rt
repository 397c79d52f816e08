// The text program over lent memory, with no system call: is an input too long, and what the lines of a piece of it do and print.
#![tactic(auto)]

ghost use Rattle.std.specs.Prelude.{◌≡◌, ltb};
ghost use Rattle.text_program.specs.Program.{input_most};
ghost use Rattle.text_program.specs.Piece.{line_end, Ready, Serves};

use text_listing::LINE_MOST;

// The longest input that is taken.
pub const INPUT_MOST: usize = 65536;

// How many bytes were put into the buffer, where the next line starts, and whether the workspace is a ledger now: a flag, since the words are there
// either way.
#[derive(Drop)]
pub struct Piece {
    pub count: usize,
    pub next: usize,
    pub known: bool,
}

// Whether an input of so many bytes is too long. Who asks for one byte more than the longest that is taken sees enough.
pub fn is_too_long(count: usize) -> bool
    ensures { result ≡ ltb input_most count }
{
    count > INPUT_MOST
}

// The first line ends at its line feed, or with the input.
pub fn line_end(input: &[u8]) -> usize
    ensures { result ≡ line_end input.now }
{
    line_words::find_byte(input, b'\n')
}

// Serves lines from `start` on, as long as the buffer has room for the longest that a line prints. Its loop goes on by lines, and not by one.
pub fn serve_piece(w: &mut [u16], known: bool, input: &[u8], start: usize, out: &mut [u8]) -> Piece
    requires { Ready w.old known out.old }
    ensures { Serves w.old input.now start out.old result w.new out.new }
{
    let most = out.len() - LINE_MOST;
    let mut known = known;
    let mut count = 0;
    let mut next = start;
    while next < input.len() && count <= most {
        let end = next + line_end(&input[next..]);
        let served = line_serve::serve(w, known, &input[next..end], out, count);
        known = served.known;
        count = served.at;
        next = end + 1;
    }
    Piece { count, next, known }
}
