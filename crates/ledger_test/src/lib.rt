// What every public call asks first, once, that makes no new ledger: is the lent memory one.
#![tactic(auto)]

ghost use Rattle.std.specs.Prelude.{◌≡◌};
ghost use Rattle.rules.specs.Calls.{test_of, beside_of};

use rules::layout;
use terms::answer::Refusal;

// Whether a workspace is a ledger, or which of refusals 1, 2, 14 and 15 stops the call.
#[tactic(auto, unfolding(rules::specs::Calls::test_of))]
pub fn test(w: &[u16]) -> Result<(), Refusal>
    ensures { result ≡ test_of w.now }
{
    if w.len() != layout::SIZE {
        return Err(Refusal::WrongLength);
    }
    sound::damage(w)
}

// The same where something lent beside the words has to have a length of its own: its refusal comes just after 1.
#[tactic(auto, unfolding(rules::specs::Calls::test_of, rules::specs::Calls::beside_of))]
pub fn test_beside(w: &[u16], wrong: bool, refusal: Refusal) -> Result<(), Refusal>
    ensures { result ≡ beside_of wrong refusal w.now }
{
    if w.len() == layout::SIZE && wrong {
        return Err(refusal);
    }
    test(w)
}
