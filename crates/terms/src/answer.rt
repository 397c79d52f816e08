// What a call answers, and why it may be refused.
ghost use Rattle.std.specs.Prelude.{◌≡◌};
ghost use Rattle.terms.specs.Answers.{number, refusal_number, refusal_row, value};

// Why a call was refused, in the order of their numbers. Damage of a record or a slot is named by the lowest
// row that breaks a rule.
#[derive(Clone, Copy)]
pub enum Refusal {
    WrongLength,
    DamagedHeader,
    BadSetting,
    NameTaken,
    BadSlot,
    BadParents,
    UnknownParent,
    ParentTwice,
    Full,
    UnknownName,
    NotWaiting,
    WrongVotes,
    BadVote,
    DamagedRecord(u16),
    DamagedSlot(u16),
    ShortBuffer,
    BadFile,
    WrongIndex,
    OtherMarks,
    IndexFull,
}

// Every call answers so. Open, book, poll, reading a file, building an index and entering are taken with value 0, a file is written or moved with its length,
// and a name is looked up with its booking's number.
pub type Answer = Result<i64, Refusal>;

// Which of the five readings is asked for.
#[derive(Clone, Copy)]
pub enum Reading {
    Query,
    Accepted,
    Lead,
    Confidence,
    Size,
}

// Two numbers of one refusal, so neither is its `From`.
impl Refusal {
    pub fn number(self) -> u32
        ensures { result ≡ refusal_number self }
    {
        match self {
            Refusal::WrongLength => 1,
            Refusal::DamagedHeader => 2,
            Refusal::BadSetting => 3,
            Refusal::NameTaken => 4,
            Refusal::BadSlot => 5,
            Refusal::BadParents => 6,
            Refusal::UnknownParent => 7,
            Refusal::ParentTwice => 8,
            Refusal::Full => 9,
            Refusal::UnknownName => 10,
            Refusal::NotWaiting => 11,
            Refusal::WrongVotes => 12,
            Refusal::BadVote => 13,
            Refusal::DamagedRecord(_) => 14,
            Refusal::DamagedSlot(_) => 15,
            Refusal::ShortBuffer => 16,
            Refusal::BadFile => 17,
            Refusal::WrongIndex => 18,
            Refusal::OtherMarks => 19,
            Refusal::IndexFull => 27,
        }
    }

    // The lowest row that breaks a rule, where a record or a slot is damaged; 0 for every other refusal.
    pub fn row(self) -> u16
        ensures { result ≡ refusal_row self }
    {
        match self {
            Refusal::DamagedRecord(row) | Refusal::DamagedSlot(row) => row,
            _ => 0,
        }
    }
}

// 0 for a taken call, else the refusal's number.
pub fn number(answer: Answer) -> u32
    ensures { result ≡ number answer }
{
    match answer {
        Ok(_) => 0,
        Err(refusal) => refusal.number(),
    }
}

// The value of a taken call, else the refusal's row.
pub fn value(answer: Answer) -> i64
    ensures { result ≡ value answer }
{
    match answer {
        Ok(taken) => taken,
        Err(refusal) => i64::from(refusal.row()),
    }
}
