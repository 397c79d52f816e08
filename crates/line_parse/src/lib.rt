// A line of the text program is a command. What each line says is in specs/Line.antt.
#![tactic(auto)]

pub mod command;
mod line;

ghost use Rattle.line_parse.specs.Line.{Parsed};

use command::Command;
use line_keyword::Keyword;

// None where the line is bad. The parents of a booking and the votes of a poll are written to the start of the lent buffers.
pub fn parse(line: &[u8], parents: &mut [u64; 16], votes: &mut [u8; 64]) -> Option<Command>
    ensures { Parsed line.now parents.old votes.old result parents.new votes.new }
{
    let end = line_words::word_end(line);
    match line_keyword::read_keyword(&line[..end]) {
        Keyword::Open => line::read_open(line, end),
        Keyword::Book => line::read_book(line, end, parents),
        Keyword::Poll => line::read_poll(line, end, votes),
        Keyword::Read(reading) => line::read_reading(line, end, reading),
        Keyword::List => line::read_list(line, end),
        Keyword::Unknown => None,
    }
}
