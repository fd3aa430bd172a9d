// Document 01's number and place of an answer, to a sheet or to a route. Its table, so that a match says it; accounts have their own numbers in exports.
#![tactic(auto)]

ghost use Rattle.std.specs.Prelude.{◌≡◌};
ghost use Rattle.judge.specs.Answers.{answer_number, answer_place};

use judge::Refusal;

pub fn number_of<T: Drop>(answer: Result<T, Refusal>) -> usize
    ensures { result ≡ answer_number answer }
{
    match answer {
        Ok(_) => 0,
        Err(Refusal::NotWhole) => 1,
        Err(Refusal::TooMany) => 2,
        Err(Refusal::BadField(_)) => 3,
        Err(Refusal::BadOrder(_)) => 4,
        Err(Refusal::ShortSheet) => 5,
        Err(Refusal::AboveCeiling) => 7,
        Err(Refusal::NotWorking) => 11,
        Err(Refusal::WorkingBehind) => 12,
        Err(Refusal::ManyEngines) => 13,
        Err(Refusal::NothingHauled) => 14,
    }
}

// 0 save for number 3 and, on a route, number 4.
pub fn place_of<T: Drop>(answer: Result<T, Refusal>) -> usize
    ensures { result ≡ answer_place answer }
{
    match answer {
        Err(Refusal::BadField(place) | Refusal::BadOrder(place)) => place,
        _ => 0,
    }
}
