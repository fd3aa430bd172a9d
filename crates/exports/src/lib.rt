// The C functions that a yard's or a partner's program links; include/prskavon.h documents them.
#![tactic(auto)]

ghost use Rattle.std.specs.Prelude.{◌≡◌, ◌≤◌, length};
ghost use Rattle.account.specs.Portions.{accounted, joined};
ghost use Rattle.judge.specs.Answers.{place_of, train_answer, train_sheet, account_answer, account_sheet};
ghost use Rattle.route.specs.Answers.{train_route, train_speeds, account_route, account_speeds};
ghost use Rattle.travel.specs.AccountRecords.{offered};
ghost use Rattle.exports.specs.Lent.{IsPlaced, sheet_number, route_number, lent_number, lent_account, lent_vehicle, lent_room};

use account::{account_of, join};
use answer::{number_of, place_of};
use judge::{Refusal, sheet_of_account, sheet_of_train};
use lend::{copy, lend, one_number};
use record::vehicle::SIZE;
use route::{route_of_account, route_of_train};
use speed::holds_the_speed;
use travel::offered_by;

mod lend;

// An answer of the judging library, or of the route library, as one number.
fn sheet_number<T: Copy>(answer: Result<T, Refusal>) -> u64
    requires { IsPlaced place_of answer }
    ensures { result ≡ sheet_number answer }
{
    one_number(number_of(answer), place_of(answer))
}

// An answer of the route library: the same number, and the category granted above it, as C has it.
fn route_number(route: Result<u8, Refusal>) -> u64
    requires { IsPlaced place_of route }
    ensures { result ≡ route_number route }
{
    sheet_number(route) + 4294967296 * u64::from(route.unwrap_or(0))
}

// The sheet of a whole train.
#[unsafe(no_mangle)]
pub extern "C" fn prskavon_sheet_of_train(vehicles: &[u8], order: &[u8], sheet: &mut [u8]) -> u64
    ensures value { result ≡ sheet_number (train_answer vehicles.now order.now (length sheet.old)) }
    ensures sheet_after { sheet.new ≡ train_sheet vehicles.now order.now sheet.old }
{
    sheet_number(sheet_of_train(vehicles, order, sheet))
}

// The account of a portion of hauled vehicles.
#[unsafe(no_mangle)]
pub extern "C" fn prskavon_account_of(portion: &[u8], account: &mut [u8]) -> u64
    ensures value { result ≡ lent_number (accounted portion.now) (length account.old) }
    ensures account_after { account.new ≡ lent_account (accounted portion.now) account.old }
{
    lend(account_of(portion), account)
}

// The account of two neighbouring portions, from their accounts.
#[unsafe(no_mangle)]
pub extern "C" fn prskavon_join(left: &[u8], right: &[u8], account: &mut [u8]) -> u64
    ensures value { result ≡ lent_number (joined (offered left.now) (offered right.now)) (length account.old) }
    ensures account_after { account.new ≡ lent_account (joined (offered left.now) (offered right.now)) account.old }
{
    lend(join(offered_by(left), offered_by(right)), account)
}

// The sheet of working engines lent apart, with the account of what they haul.
#[unsafe(no_mangle)]
pub extern "C" fn prskavon_sheet_of_account(
    engines: &[u8],
    hauled: &[u8],
    order: &[u8],
    sheet: &mut [u8],
) -> u64
    ensures value { result ≡ sheet_number (account_answer engines.now (offered hauled.now) order.now (length sheet.old)) }
    ensures sheet_after { sheet.new ≡ account_sheet engines.now (offered hauled.now) order.now sheet.old }
{
    sheet_number(sheet_of_account(engines, offered_by(hauled), order, sheet))
}

// The route of a whole train: one order record a section, one byte lent for each.
#[unsafe(no_mangle)]
pub extern "C" fn prskavon_route_of_train(vehicles: &[u8], orders: &[u8], speeds: &mut [u8]) -> u64
    ensures value { result ≡ route_number (train_route vehicles.now orders.now (length speeds.old)) }
    ensures speeds_after { speeds.new ≡ train_speeds vehicles.now orders.now speeds.old }
{
    route_number(route_of_train(vehicles, orders, speeds))
}

// The route of working engines lent apart, with the account of what they haul.
#[unsafe(no_mangle)]
pub extern "C" fn prskavon_route_of_account(
    engines: &[u8],
    hauled: &[u8],
    orders: &[u8],
    speeds: &mut [u8],
) -> u64
    ensures value { result ≡ route_number (account_route engines.now (offered hauled.now) orders.now (length speeds.old)) }
    ensures speeds_after { speeds.new ≡ account_speeds engines.now (offered hauled.now) orders.now speeds.old }
{
    route_number(route_of_account(engines, offered_by(hauled), orders, speeds))
}

// Copies the vehicle that holds the speed, and answers how many bytes it copied, 0 where there is none, as C has it.
#[unsafe(no_mangle)]
pub extern "C" fn prskavon_holds_the_speed<'a>(
    front: &'a [u8],
    back: &'a [u8],
    vehicle: &mut [u8],
) -> usize
    ensures value { result ≡ length (lent_vehicle front.now back.now (length vehicle.old)) }
    ensures vehicle_after { vehicle.new ≡ lent_room front.now back.now vehicle.old }
{
    if vehicle.len() < SIZE {
        return 0;
    }
    let part = holds_the_speed(front, back);
    copy(part, vehicle)
}
