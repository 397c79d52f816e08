// Where the editions of the rules differ: specs/Editions.antt says how. Polls and acceptance ask here, and nowhere else which edition it is.
ghost use Rattle.std.specs.Prelude.{◌≡◌};
ghost use Rattle.terms.specs.Editions.{restart, enough, failure_clears};

use crate::setting::Setting;

// What the counter of a slot becomes when its last changes.
#[tactic(auto, unfolding(crate::specs::Editions::restart))]
pub fn restart(edition: u16) -> u16
    ensures { result ≡ restart edition }
{
    if edition == Setting::LATER_EDITION {
        return 1;
    }
    0
}

// Whether a counter is enough for beta, in both arms of acceptance.
#[tactic(auto, unfolding(crate::specs::Editions::enough))]
pub fn is_enough(edition: u16, beta: u16, counter: u16) -> bool
    ensures { result ≡ enough edition beta counter }
{
    if edition == Setting::LATER_EDITION {
        return beta <= counter;
    }
    beta < counter
}

// Whether a failed poll sets the counter of every slot in the ancestry to 0.
#[tactic(auto, unfolding(crate::specs::Editions::failure_clears))]
pub fn failure_clears(edition: u16) -> bool
    ensures { result ≡ failure_clears edition }
{
    edition == Setting::LATER_EDITION
}
