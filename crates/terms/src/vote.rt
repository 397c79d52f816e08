// What a vote byte says, and what a record's state word says.
ghost use Rattle.std.specs.Prelude.{◌≡◌};
ghost use Rattle.terms.specs.Votes.{vote_of, state_says};

#[derive(Clone, Copy)]
pub enum Vote {
    Yes,
    No,
    Silent,
    Refused,
}

// A byte is the signed number that the station sent: 255 is -1, a no, and never a large yes. A function of this name, where `From` would say no more.
#[tactic(auto, unfolding(crate::specs::Votes::vote_of))]
pub fn read_vote(byte: u8) -> Vote
    ensures { result ≡ vote_of byte }
{
    match byte {
        1 => Vote::Yes,
        255 => Vote::No,
        0 => Vote::Silent,
        2..=254 => Vote::Refused,
    }
}

#[derive(Clone, Copy)]
pub enum State {
    Waiting,
    NoChit,
    Chit,
    Unknown,
}

#[tactic(auto, unfolding(crate::specs::Votes::state_says))]
pub fn read_state(word: u16) -> State
    ensures { result ≡ state_says word }
{
    match word {
        0 => State::Waiting,
        1 => State::NoChit,
        2 => State::Chit,
        3..=65535 => State::Unknown,
    }
}
