// The refusals, group by group, in document 01's order.
ghost use Rattle.std.specs.Prelude.{◌≡◌, true, [], ◌∷◌};
ghost use Rattle.lists.specs.Refusals.{answered};
ghost use Rattle.judge.specs.Answers.{bad_field, count_refusals, order_tests, engine_refusals, size};

use crate::Refusal;
use account::{Account, within_ceilings};
use record::vehicle::{MOST, SIZE, first_bad};

// 3.
pub(crate) fn field_refusal(records: &[u8]) -> Result<(), Refusal>
    ensures { result ≡ answered (bad_field records.now ∷ []) }
{
    match first_bad(records) {
        Some(place) => Err(Refusal::BadField(place)),
        None => Ok(()),
    }
}

// 3, looked for in a part of the records where the others are known to be good.
// The mark is what the caller was told of the others, and of no value here.
pub(crate) fn field_refusal_in(
    part: &[u8],
    records: &[u8],
    others_good: bool,
) -> Result<(), Refusal>
    requires { others_good ≡ true → answered (bad_field part.now ∷ []) ≡ answered (bad_field records.now ∷ []) }
    ensures { result ≡ answered (bad_field records.now ∷ []) }
{
    if others_good {
        return field_refusal(part);
    }
    field_refusal(records)
}

// 1, 2 of a whole train.
pub(crate) fn count_refusal(vehicles: &[u8]) -> Result<(), Refusal>
    ensures { result ≡ answered (count_refusals vehicles.now) }
{
    if vehicles.is_empty() | (vehicles.len() % SIZE != 0) {
        return Err(Refusal::NotWhole);
    }
    if MOST < vehicles.len() / SIZE {
        return Err(Refusal::TooMany);
    }
    Ok(())
}

// 1, 7, 2, 3 of engines with an account.
pub(crate) fn engine_refusal(engines: &[u8], hauled: Account) -> Result<(), Refusal>
    ensures { result ≡ answered (engine_refusals engines.now hauled) }
{
    if engines.is_empty() | (engines.len() % SIZE != 0) {
        return Err(Refusal::NotWhole);
    }
    if !within_ceilings(hauled) {
        return Err(Refusal::AboveCeiling);
    }
    if MOST < engines.len() / SIZE + hauled.count as usize {
        return Err(Refusal::TooMany);
    }
    field_refusal(engines)
}

// 4, 5.
pub(crate) fn order_refusal(good: bool, bytes: usize, room: usize) -> Result<(), Refusal>
    ensures { result ≡ answered (order_tests good bytes room) }
{
    if !good {
        return Err(Refusal::BadOrder(0));
    }
    if room < bytes {
        return Err(Refusal::ShortSheet);
    }
    Ok(())
}

// 13, 14.
pub(crate) fn size_refusal(engines: usize, hauled: u32) -> Result<(), Refusal>
    ensures { result ≡ answered (size engines hauled) }
{
    if 2 < engines {
        return Err(Refusal::ManyEngines);
    }
    if hauled == 0 {
        return Err(Refusal::NothingHauled);
    }
    Ok(())
}
