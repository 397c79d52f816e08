// What one line does to the workspace and prints. The words are all zero until a ledger is opened and a ledger from then on, and which is known at all
// times: so no line tests them again, and the only damage that is ever told is that of words which were never opened.
// Words, flag, buffer and offset stay apart, as the contract of `serve` has them: a struct of two lent buffers would take more clauses than it spares.
#![tactic(auto)]

ghost use Rattle.std.specs.Prelude.{◌≡◌};
ghost use Rattle.terms.specs.Answers.{outcome};
ghost use Rattle.rules.specs.Calls.{open_call, book_call, poll_call, read_call};
ghost use Rattle.line_serve.specs.Serve.{called, asked, listed, bad, served, Keeps, Ready, Serves};

use line_parse::command::Command;
use terms::answer::{Answer, Reading, Refusal};
use terms::setting::Setting;

// The offset after what was printed, and whether the workspace is a ledger now: a flag, since the words are there either way.
#[derive(Drop)]
pub struct Served {
    pub at: usize,
    pub known: bool,
}

fn serve_open(w: &mut [u16], known: bool, s: Setting, out: &mut [u8], at: usize) -> Served
    requires { Ready w.old known out.old at }
    ensures { Serves (called (open_call w.old s)) out.old at result w.new out.new }
{
    if s.is_good() {
        open_writes::write_open(w, s);
        Served { at, known: true }
    } else {
        let next = text_print::put_call(out, at, Err(Refusal::BadSetting));
        Served { at: next, known }
    }
}

// A booking on a workspace that is known to be a ledger or all zero.
fn book(w: &mut [u16], known: bool, name: u64, slot: u16, parents: &[u64]) -> Answer
    requires { Keeps known w.old }
    ensures { outcome result w.new ≡ book_call w.old name slot parents.now }
{
    if known {
        known_book::book(w, name, slot, parents)
    } else {
        Err(Refusal::DamagedHeader)
    }
}

fn serve_book(
    w: &mut [u16],
    known: bool,
    name: u64,
    slot: u16,
    parents: &[u64],
    out: &mut [u8],
    at: usize,
) -> Served
    requires { Ready w.old known out.old at }
    ensures { Serves (called (book_call w.old name slot parents.now)) out.old at result w.new out.new }
{
    let answer = book(w, known, name, slot, parents);
    let next = text_print::put_call(out, at, answer);
    Served { at: next, known }
}

// A poll on a workspace that is known to be a ledger or all zero.
fn poll(w: &mut [u16], known: bool, name: u64, votes: &[u8]) -> Answer
    requires { Keeps known w.old }
    ensures { outcome result w.new ≡ poll_call w.old name votes.now }
{
    if known {
        known_poll::poll(w, name, votes)
    } else {
        Err(Refusal::DamagedHeader)
    }
}

fn serve_poll(
    w: &mut [u16],
    known: bool,
    name: u64,
    votes: &[u8],
    out: &mut [u8],
    at: usize,
) -> Served
    requires { Ready w.old known out.old at }
    ensures { Serves (called (poll_call w.old name votes.now)) out.old at result w.new out.new }
{
    let answer = poll(w, known, name, votes);
    let next = text_print::put_call(out, at, answer);
    Served { at: next, known }
}

// A reading of a workspace that is known to be a ledger or all zero.
fn read(w: &[u16], known: bool, name: u64, what: Reading) -> Answer
    requires { Keeps known w.now }
    ensures { result ≡ read_call what w.now name }
{
    if known {
        known_read::ask(w, name, what)
    } else {
        Err(Refusal::DamagedHeader)
    }
}

fn serve_read(w: &[u16], known: bool, name: u64, what: Reading, out: &mut [u8], at: usize) -> Served
    requires { Ready w.now known out.old at }
    ensures { Serves (asked w.now (read_call what w.now name)) out.old at result w.now out.new }
{
    let answer = read(w, known, name, what);
    let next = text_print::put_reading(out, at, answer);
    Served { at: next, known }
}

fn serve_list(w: &[u16], known: bool, out: &mut [u8], at: usize) -> Served
    requires { Ready w.now known out.old at }
    ensures { Serves (listed w.now) out.old at result w.now out.new }
{
    if known {
        let next = text_listing::put_list(w, out, at);
        Served { at: next, known }
    } else {
        let next = text_print::put_call(out, at, Err(Refusal::DamagedHeader));
        Served { at: next, known }
    }
}

fn serve_bad(w: &[u16], known: bool, out: &mut [u8], at: usize) -> Served
    requires { Ready w.now known out.old at }
    ensures { Serves (bad w.now) out.old at result w.now out.new }
{
    let next = text_print::put_bad_line(out, at);
    Served { at: next, known }
}

// The whole line is judged first; then its call is made: each command has its own function, so a match and no table.
pub fn serve(w: &mut [u16], known: bool, line: &[u8], out: &mut [u8], at: usize) -> Served
    requires { Ready w.old known out.old at }
    ensures { Serves (served w.old line.now) out.old at result w.new out.new }
{
    let mut parents = [0u64; 16];
    let mut votes = [0u8; 64];
    let Some(command) = line_parse::parse(line, &mut parents, &mut votes) else {
        return serve_bad(w, known, out, at);
    };
    match command {
        Command::Open(s) => serve_open(w, known, s, out, at),
        Command::Book { name, slot, count } => serve_book(
            w,
            known,
            name,
            slot,
            &parents[..count],
            out,
            at,
        ),
        Command::Poll { name, count } => serve_poll(w, known, name, &votes[..count], out, at),
        Command::Read { reading, name } => serve_read(w, known, name, reading, out, at),
        Command::List => serve_list(w, known, out, at),
    }
}
