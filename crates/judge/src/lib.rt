// The judging library: what a train, or engines beside an account, is answered, and its sheet.
#![tactic(auto)]

ghost use Rattle.std.specs.Prelude.{◌≡◌, ◌≤◌, ◌++◌, length, drop};
ghost use Rattle.lists.specs.Refusals.{answered};
ghost use Rattle.order.specs.Orders.{order_read};
ghost use Rattle.sheets.specs.Sheets.{sheet_length};
ghost use Rattle.judge.specs.Answers.{order_refusals, sheet_for, train_answer, train_sheet, account_answer, account_sheet};
ghost use Rattle.judge.specs.Judging.{train_judged, account_judged};

use account::{Account, account_of};
use facts::{Facts, facts_beside};
use order::{Order, is_good_order, read_order};
use record::vehicle::{SIZE, working_count};
use sheets::{length_of, sheet_of};

mod groups;

// Why there is no sheet, with its number among the answers, in which 0 is done.
#[derive(Clone, Copy, PartialEq, Eq)]
pub enum Refusal {
    // 1: the list is empty or not a multiple of 24 bytes
    NotWhole,
    // 2: more than 200 records together
    TooMany,
    // 3: a field out of range, in the record at this place
    BadField(usize),
    // 4: the order record; on a route, the section at this place
    BadOrder(usize),
    // 5: fewer bytes are lent than will be written
    ShortSheet,
    // 7: an account with a figure above its ceiling
    AboveCeiling,
    // 11: the first record, or one of engines lent apart, is not a working engine
    NotWorking,
    // 12: a working engine stands behind another kind
    WorkingBehind,
    // 13: more than two working engines
    ManyEngines,
    // 14: nothing is hauled
    NothingHauled,
}

// The facts of a whole train, or its first refusal; `lent` is what was answered of things lent beside it.
pub fn train_facts(vehicles: &[u8], lent: Result<(), Refusal>) -> Result<Facts, Refusal>
    ensures { result ≡ train_judged vehicles.now lent }
{
    groups::count_refusal(vehicles)?;
    let working = working_count(vehicles);
    let (engines, rest) = vehicles.split_at(SIZE * working);
    let hauled = account_of(rest);
    // An account has read each record of its portion: beside one, the engines alone are left to be tested.
    groups::field_refusal_in(engines, vehicles, hauled.is_ok())?;
    lent?;
    if working == 0 {
        return Err(Refusal::NotWorking);
    }
    let hauled = hauled.or(Err(Refusal::WorkingBehind))?;
    groups::size_refusal(working, hauled.count)?;
    Ok(facts_beside(engines, hauled))
}

// The same of working engines lent apart, with an account of what they haul: their own order of refusals, so that a trait of both would be longer.
pub fn account_facts(
    engines: &[u8],
    hauled: Account,
    lent: Result<(), Refusal>,
) -> Result<Facts, Refusal>
    ensures { result ≡ account_judged engines.now hauled lent }
{
    groups::engine_refusal(engines, hauled)?;
    lent?;
    let n = engines.len() / SIZE;
    if working_count(engines) < n {
        return Err(Refusal::NotWorking);
    }
    groups::size_refusal(n, hauled.count)?;
    Ok(facts_beside(engines, hauled))
}

// 4, 5, of an order as it was read.
fn lent_refusal(order: &[u8], o: Order, room: usize) -> Result<(), Refusal>
    requires { o ≡ order_read order.now }
    ensures { result ≡ answered (order_refusals order.now room) }
{
    groups::order_refusal(is_good_order(order), length_of(o.book), room)
}

// Writes the sheet of the facts.
fn put_sheet(f: Facts, o: Order, sheet: &mut [u8])
    requires { sheet_length o.book ≤ length sheet.old }
    ensures { sheet.new ≡ sheet_for f o ++ drop (length (sheet_for f o)) sheet.old }
{
    let made = sheet_of(f, o);
    let n = length_of(o.book);
    sheet[..n].copy_from_slice(&made[..n]);
}

// The sheet of a whole train.
pub fn sheet_of_train(vehicles: &[u8], order: &[u8], sheet: &mut [u8]) -> Result<(), Refusal>
    ensures value { result ≡ train_answer vehicles.now order.now (length sheet.old) }
    ensures sheet_after { sheet.new ≡ train_sheet vehicles.now order.now sheet.old }
{
    let o = read_order(order);
    let lent = lent_refusal(order, o, sheet.len());
    let f = train_facts(vehicles, lent)?;
    put_sheet(f, o, sheet);
    Ok(())
}

// The sheet of working engines lent apart, with an account of what they haul. Beside `sheet_of_train`: the two differ in where the facts come from,
// and README names both; a trait of a train and of engines beside an account would be longer than these lines.
pub fn sheet_of_account(
    engines: &[u8],
    hauled: Account,
    order: &[u8],
    sheet: &mut [u8],
) -> Result<(), Refusal>
    ensures value { result ≡ account_answer engines.now hauled order.now (length sheet.old) }
    ensures sheet_after { sheet.new ≡ account_sheet engines.now hauled order.now sheet.old }
{
    let o = read_order(order);
    let lent = lent_refusal(order, o, sheet.len());
    let f = account_facts(engines, hauled, lent)?;
    put_sheet(f, o, sheet);
    Ok(())
}
