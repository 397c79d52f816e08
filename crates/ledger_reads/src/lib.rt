// THE PUBLIC READINGS. Each takes any lent words and any name, needs no check first, and answers by the law. `ledger` passes them on.
#![tactic(auto)]

ghost use Rattle.std.specs.Prelude.{◌≡◌};
ghost use Rattle.rules.specs.Calls.{read_call, query_call, accepted_call, lead_call, confidence_call, size_call};

use terms::answer::{Answer, Reading};

// A reading by name. Refusals 1, 2, 14, 15, 10, which all five share.
fn read(w: &[u16], name: u64, what: Reading) -> Answer
    ensures { result ≡ read_call what w.now name }
{
    ledger_test::test(w)?;
    known_read::ask(w, name, what)
}

// 1 exactly if every member of the ancestry is preferred in its slot.
pub fn query(w: &[u16], name: u64) -> Answer
    ensures { result ≡ query_call w.now name }
{
    read(w, name, Reading::Query)
}

pub fn accepted(w: &[u16], name: u64) -> Answer
    ensures { result ≡ accepted_call w.now name }
{
    read(w, name, Reading::Accepted)
}

// The confidence, less the greatest among the slot's other bookings.
pub fn lead(w: &[u16], name: u64) -> Answer
    ensures { result ≡ lead_call w.now name }
{
    read(w, name, Reading::Lead)
}

pub fn confidence(w: &[u16], name: u64) -> Answer
    ensures { result ≡ confidence_call w.now name }
{
    read(w, name, Reading::Confidence)
}

// How many members the ancestry has.
pub fn size(w: &[u16], name: u64) -> Answer
    ensures { result ≡ size_call w.now name }
{
    read(w, name, Reading::Size)
}
