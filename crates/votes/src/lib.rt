// The votes of a poll: how many say yes, and whether one is refused.
#![tactic(auto)]

ghost use Rattle.std.specs.Prelude.{◌≡◌};
ghost use Rattle.terms.specs.Votes.{vote_of, is_yes, is_refused};
ghost use Rattle.rules.specs.Poll.{yes_votes, has_refused_vote};

use terms::vote;
use terms::vote::Vote;

// A no takes nothing away, and silence counts neither way.
fn is_yes(byte: u8) -> bool
    ensures { result ≡ is_yes (vote_of byte) }
{
    matches!(vote::read_vote(byte), Vote::Yes)
}

pub fn count_yes(votes: &[u8]) -> usize
    ensures { result ≡ yes_votes votes.now }
{
    votes.iter().map(|byte| usize::from(is_yes(*byte))).sum()
}

fn is_refused(byte: u8) -> bool
    ensures { result ≡ is_refused (vote_of byte) }
{
    matches!(vote::read_vote(byte), Vote::Refused)
}

pub fn has_refused(votes: &[u8]) -> bool
    ensures { result ≡ has_refused_vote votes.now }
{
    votes.iter().any(|byte| is_refused(*byte))
}
