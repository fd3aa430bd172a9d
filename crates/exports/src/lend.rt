// An answer as one number; an account, put into the room that a caller lends for it.
ghost use Rattle.std.specs.Prelude.{◌≡◌, ◌<◌, ◌≤◌, ◌++◌, length, drop};
ghost use Rattle.account.specs.Answers.{number_of, place_of, refused_place};
ghost use Rattle.exports.specs.Lent.{IsPlaced, one_number, lent_number, lent_account};

use account::{Account, Refusal, Refused};
use travel::{SIZE, record_of};

// Number and place as one number; a place is that of one of 200 records, or of 64 sections.
pub(crate) fn one_number(number: usize, place: usize) -> u64
    requires { (number < 256) × (place ≤ 200) }
    ensures { result ≡ one_number number place }
{
    (number + 256 * place) as u64
}

// A refusal of the accounts' library: its numbers, which C has (include/prskavon.h).
fn account_number(refusal: Refusal) -> u64
    requires { place_of refusal ≤ 200 }
    ensures { result ≡ one_number (number_of refusal) (place_of refusal) }
{
    match refusal {
        Refusal::NotWhole => 1,
        Refusal::TooMany => 2,
        Refusal::BadField(place) => one_number(3, place),
        Refusal::WorkingEngine => 6,
        Refusal::AboveCeiling => 7,
    }
}

// Writes the account where there is one and it has room, and answers.
pub(crate) fn lend(given: Result<Account, Refused>, room: &mut [u8]) -> u64
    requires { IsPlaced refused_place given }
    ensures value { result ≡ lent_number given (length room.old) }
    ensures room_after { room.new ≡ lent_account given room.old }
{
    match given {
        Err(refused) => account_number(refused.refusal),
        Ok(_) if room.len() < SIZE => 5,
        Ok(account) => {
            copy(&record_of(account), room);
            0
        }
    }
}

// Copies into the front of a buffer that has room, and answers how many bytes: C lends the memory.
pub(crate) fn copy(from: &[u8], to: &mut [u8]) -> usize
    requires { length from.now ≤ length to.old }
    ensures count { result ≡ length from.now }
    ensures copied { to.new ≡ from.now ++ drop (length from.now) to.old }
{
    let n = from.len();
    to[..n].copy_from_slice(from);
    n
}
