// THE PUBLIC CALLS ON AN INDEX of names that is lent beside the words. Each takes any lent words, any index and any name, needs no check first, and
// settles answer and all that it was lent by the law. None changes a word.
#![tactic(auto)]

ghost use Rattle.std.specs.Prelude.{◌≡◌};
ghost use Rattle.terms.specs.Answers.{handover};
ghost use Rattle.rules.specs.Calls.{beside_of};
ghost use Rattle.terms.specs.declared.answer.Refusal.TheVariants.{WrongIndex};
ghost use Rattle.name_index.specs.Calls.{is_wrong_index, index_build_call, index_enter_call, index_find_call};

use name_index::cells;
use terms::answer::{Answer, Refusal};

// Whether the words are a ledger and the index has its length, or which of refusals 1, 18, 2, 14 and 15 stops the call.
fn test(w: &[u16], index: &[u16]) -> Result<(), Refusal>
    ensures { result ≡ beside_of (is_wrong_index index.now) WrongIndex w.now }
{
    ledger_test::test_beside(w, index.len() != cells::CELLS, Refusal::WrongIndex)
}

// The index becomes the empty one with every booking's number entered, whatever it held. Refusals 1, 18, 2, 14, 15.
pub fn build(w: &[u16], index: &mut [u16]) -> Answer
    ensures { handover result w.now index.new ≡ index_build_call w.now index.old }
{
    test(w, index)?;
    known_index::build(w, index)
}

// The newest booking's number enters the index. Refusals 1, 18, 2, 14, 15, 27.
pub fn enter(w: &[u16], index: &mut [u16]) -> Answer
    ensures { handover result w.now index.new ≡ index_enter_call w.now index.old }
{
    test(w, index)?;
    known_index::enter(w, index)
}

// The number of the booking with the name, as probing the index finds it. Refusals 1, 18, 2, 14, 15, 10.
pub fn find(w: &[u16], index: &[u16], name: u64) -> Answer
    ensures { result ≡ index_find_call w.now index.now name }
{
    test(w, index)?;
    known_index::find(w, index, name)
}
