// A route: one train over up to 64 sections, in one category from end to end. The train is accounted once.
#![tactic(auto)]

ghost use Rattle.std.specs.Prelude.{◌≡◌, length};
ghost use Rattle.lists.specs.Refusals.{answered};
ghost use Rattle.sections.specs.Sections.{laid_over};
ghost use Rattle.route.specs.Answers.{section_refusals, granted_for, speeds_for, train_route, train_speeds, account_route, account_speeds};

use account::Account;
use facts::Facts;
use judge::{Refusal, account_facts, train_facts};
use record::vehicle::SIZE;
use sections::grant::{grant_on, put_speeds};
use sections::section::leading_good;

// The most sections of a route.
const MOST: usize = 64;

// 4, 4, 5.
fn section_refusal(orders: &[u8], room: usize) -> Result<(), Refusal>
    ensures { result ≡ answered (section_refusals orders.now room) }
{
    let n = orders.len() / SIZE;
    if (orders.len() % SIZE != 0) | (n == 0) | (MOST < n) {
        return Err(Refusal::BadOrder(0));
    }
    let place = leading_good(orders);
    if place < n {
        return Err(Refusal::BadOrder(place));
    }
    if room < n {
        return Err(Refusal::ShortSheet);
    }
    Ok(())
}

// Writes the speeds in the category granted on every section, and gives its number, or 0, as C and ROUTE say it (`granted_for`).
fn put_route(f: Facts, orders: &[u8], speeds: &mut [u8]) -> u8
    ensures value { result ≡ granted_for f orders.now }
    ensures speeds_after { speeds.new ≡ laid_over (speeds_for f orders.now) speeds.old }
{
    let granted = grant_on(f, orders).map_or(0, |best| best.number);
    put_speeds(granted, f, orders, speeds);
    granted
}

// The category that a whole train is granted on its route, or 0: one order record a section, one byte lent for each.
pub fn route_of_train(vehicles: &[u8], orders: &[u8], speeds: &mut [u8]) -> Result<u8, Refusal>
    ensures value { result ≡ train_route vehicles.now orders.now (length speeds.old) }
    ensures speeds_after { speeds.new ≡ train_speeds vehicles.now orders.now speeds.old }
{
    let lent = section_refusal(orders, speeds.len());
    let f = train_facts(vehicles, lent)?;
    Ok(put_route(f, orders, speeds))
}

// The same of working engines lent apart, with an account of what they haul. Two functions, as in judge: they differ in where the facts come from.
pub fn route_of_account(
    engines: &[u8],
    hauled: Account,
    orders: &[u8],
    speeds: &mut [u8],
) -> Result<u8, Refusal>
    ensures value { result ≡ account_route engines.now hauled orders.now (length speeds.old) }
    ensures speeds_after { speeds.new ≡ account_speeds engines.now hauled orders.now speeds.old }
{
    let lent = section_refusal(orders, speeds.len());
    let f = account_facts(engines, hauled, lent)?;
    Ok(put_route(f, orders, speeds))
}
