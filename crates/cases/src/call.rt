// A call in the words of the text program, made through the public calls. Lists are lent with a count, as `line_parse` fills them.
use crate::Done;
use line_parse::command::Command;
use terms::answer::{Answer, Reading};

fn read(w: &[u16], reading: Reading, name: u64) -> Answer {
    match reading {
        Reading::Query => ledger::query(w, name),
        Reading::Accepted => ledger::accepted(w, name),
        Reading::Lead => ledger::lead(w, name),
        Reading::Confidence => ledger::confidence(w, name),
        Reading::Size => ledger::size(w, name),
    }
}

// The parents are the first of the list.
fn book(w: &mut [u16], name: u64, slot: u16, parents: &[u64], count: usize) -> Done {
    if count <= parents.len() {
        Done::Gave(ledger::book(w, name, slot, &parents[..count]))
    } else {
        Done::Nothing
    }
}

// The votes likewise.
fn poll(w: &mut [u16], name: u64, votes: &[u8], count: usize) -> Done {
    if count <= votes.len() {
        Done::Gave(ledger::poll(w, name, &votes[..count]))
    } else {
        Done::Nothing
    }
}

pub(crate) fn call(line: &[u8], w: &mut [u16]) -> Done {
    let mut parents = [0u64; 16];
    let mut votes = [0u8; 64];
    match line_parse::parse(line, &mut parents, &mut votes) {
        Some(Command::Open(s)) => Done::Gave(ledger::open(w, s)),
        Some(Command::Book { name, slot, count }) => book(w, name, slot, &parents, count),
        Some(Command::Poll { name, count }) => poll(w, name, &votes, count),
        Some(Command::Read { reading, name }) => Done::Gave(read(w, reading, name)),
        Some(Command::List) | None => Done::Nothing,
    }
}
