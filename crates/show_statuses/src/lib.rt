// The status that a command ends with, by its answer. The answers are told apart by their words alone, so that a slip here is refused without loading the entries that give them.
#![tactic(auto)]

ghost use Rattle.std.specs.Prelude.{◌≡◌};
ghost use Rattle.show_statuses.specs.Statuses as statuses;

// How a command ended: nothing is wrong; a refusal, a failed assertion, a fault or a blocked state; an error.
#[derive(Clone, Copy, PartialEq, Eq)]
pub enum Status {
    Fine,
    Wrong,
    Error,
}

// The number that is told where the program ends.
impl From<Status> for u8 {
    fn from(s: Status) -> u8
        ensures { result ≡ statuses.number s }
    {
        match s {
            Status::Fine => 0,
            Status::Wrong => 1,
            Status::Error => 2,
        }
    }
}

// What the last line of a command says: the word that it begins with, or a normal text.
#[derive(Drop)]
pub enum Answer {
    Accepted,
    Finished,
    Open,
    Text,
    Refused,
    Assert,
    Fault,
    Blocked,
    Error,
}

// The status of an answer.
pub fn status_of(a: Answer) -> Status
    ensures { result ≡ statuses.status_of a }
{
    match a {
        Answer::Accepted => Status::Fine,
        Answer::Finished => Status::Fine,
        Answer::Open => Status::Fine,
        Answer::Text => Status::Fine,
        Answer::Refused => Status::Wrong,
        Answer::Assert => Status::Wrong,
        Answer::Fault => Status::Wrong,
        Answer::Blocked => Status::Wrong,
        Answer::Error => Status::Error,
    }
}

// Of a command on a model: `x` where the model is accepted; where it is not, that of a refusal, whatever the command.
pub fn on_model(accepted: bool, x: Status) -> Status
    ensures { result ≡ statuses.model_status accepted x }
{
    if accepted {
        x
    } else {
        status_of(Answer::Refused)
    }
}
