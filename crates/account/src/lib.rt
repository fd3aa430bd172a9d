// The account of a portion of hauled vehicles, and joining. Knows no category.
#![tactic(auto)]

ghost use Rattle.std.specs.Prelude.{◌≡◌, ◌↔◌, ◌≤◌, IsTrue, EachIndex, slice_index};
ghost use Rattle.record.specs.Records.{records_of};
ghost use Rattle.account.specs.Accounts.{empty};
ghost use Rattle.account.specs.Answers.{refused_by};
ghost use Rattle.account.specs.Ceilings.{within};
ghost use Rattle.account.specs.Portions.{accounted, engine_or_bad, joined};

use crate::gather::Gathered;
use record::vehicle::{Kind, MOST, SIZE, first_bad, read};

mod gather;
mod joining;

// The figures of hauled records, in document 01's order, then those of requests.
#[derive(Clone, Copy)]
pub struct Account {
    pub count: u32,
    pub mass: u32,
    // V masses of records set to V, M masses of records set to M
    pub vmass: u32,
    pub mmass: u32,
    pub length: u32,
    // all axles, and those of records set to V
    pub axles: u32,
    pub vaxles: u32,
    // hauled engines
    pub engines: u32,
    // records set to M
    pub mset: u32,
    pub isolated: u32,
    pub dloads: u32,
    // runs of isolated
    pub leading: u32,
    pub trailing: u32,
    pub longest: u32,
    // an engine stands behind a wagon
    pub behind: bool,
    // rules 16, 17, 18 are broken
    pub rule16: bool,
    pub rule17: bool,
    pub rule18: bool,
    pub slowest: u32,
    // The settings of the first five, 4 where there is none: numbers, since what C lends as an account may have any, and is refused by 7.
    pub first: [u32; 5],
    // length of records set to V (request Three)
    pub vlength: u32,
    // M masses of hauled engines set to M (request Six)
    pub enginemmass: u32,
    // V masses of wagons set to M (request Six)
    pub wagonvmass: u32,
    // a hauled engine is not set to M (request Six)
    pub enginenotm: bool,
}

// Why a portion has no account, or two are not joined, with its number among the answers, in which 0 is done. Beside judge's: document 01 has a list of each library's own.
#[derive(Clone, Copy, PartialEq, Eq)]
pub enum Refusal {
    // 1: not a multiple of 24 bytes
    NotWhole,
    // 2: more than 200 records, or a joined figure above its ceiling
    TooMany,
    // 3: a field out of range, in the record at this place
    BadField(usize),
    // 6: a working engine in a portion offered as hauled
    WorkingEngine,
    // 7: an account with a figure above its ceiling
    AboveCeiling,
}

// A refusal, with the account that it returns, the empty one.
#[derive(Clone, Copy)]
pub struct Refused {
    pub refusal: Refusal,
    pub account: Account,
}

// The account of no vehicle. Beside `Gathered::new`, which is of another type: sums by setting, of which an account is made.
#[tactic(auto, unfolding(crate::specs::Accounts::account_of))]
fn empty_account() -> Account
    ensures { result ≡ empty }
{
    Account {
        count: 0,
        mass: 0,
        vmass: 0,
        mmass: 0,
        length: 0,
        axles: 0,
        vaxles: 0,
        engines: 0,
        mset: 0,
        isolated: 0,
        dloads: 0,
        leading: 0,
        trailing: 0,
        longest: 0,
        behind: false,
        rule16: false,
        rule17: false,
        rule18: false,
        slowest: 200,
        first: [4; 5],
        vlength: 0,
        enginemmass: 0,
        wagonvmass: 0,
        enginenotm: false,
    }
}

// A refusal returns the empty account.
fn refused_by(refusal: Refusal) -> Refused
    ensures { result ≡ refused_by refusal }
{
    Refused {
        refusal,
        account: empty_account(),
    }
}

// Refusal 6 of a portion that has a working engine, unless 3 applies.
fn engine_or_bad(portion: &[u8]) -> Refusal
    ensures { result ≡ engine_or_bad (records_of portion.now) }
{
    first_bad(portion).map_or(Refusal::WorkingEngine, Refusal::BadField)
}

// The account of a portion of hauled vehicles.
pub fn account_of(portion: &[u8]) -> Result<Account, Refused>
    ensures { result ≡ accounted portion.now }
{
    let (records, rest) = portion.as_chunks::<SIZE>();
    if !rest.is_empty() {
        return Err(refused_by(Refusal::NotWhole));
    }
    if MOST < records.len() {
        return Err(refused_by(Refusal::TooMany));
    }
    let mut gathered = Gathered::new();
    for (i, record) in records.iter().enumerate() {
        let Some(vehicle) = read(record) else {
            return Err(refused_by(Refusal::BadField(i)));
        };
        if vehicle.kind == Kind::WorkingEngine {
            return Err(refused_by(engine_or_bad(portion)));
        }
        gathered.add(vehicle);
    }
    Ok(gathered.account(portion))
}

// Whether none of these is above its ceiling, which is one for all.
fn are_at_most(figures: &[u32], ceiling: u32) -> bool
    ensures { IsTrue result ↔ EachIndex figures.now (λ k. slice_index figures.now k ≤ ceiling) }
{
    figures.iter().all(|x| *x <= ceiling)
}

// Whether an account has no figure above its ceiling; 7 is for the rest.
pub fn within_ceilings(account: Account) -> bool
    ensures { result ≡ within account }
{
    (account.count <= 200)
        & (account.mass <= 500_000)
        & (account.vmass <= 500_000)
        & (account.mmass <= 500_000)
        & (account.length <= 200_000)
        & (account.axles <= 4_800)
        & (account.vaxles <= 4_800)
        & (account.engines <= 200)
        & (account.mset <= 200)
        & (account.isolated <= 200)
        & (account.dloads <= 200)
        & (account.leading <= 200)
        & (account.trailing <= 200)
        & (account.longest <= 200)
        & (account.slowest <= 200)
        & are_at_most(&account.first, 4)
        & (account.vlength <= 200_000)
        & (account.enginemmass <= 500_000)
        & (account.wagonvmass <= 500_000)
}

// The account of two portions, from their accounts.
pub fn join(left: Account, right: Account) -> Result<Account, Refused>
    ensures { result ≡ joined left right }
{
    if !(within_ceilings(left) & within_ceilings(right)) {
        return Err(refused_by(Refusal::AboveCeiling));
    }
    let account = joining::add(left, right);
    if !within_ceilings(account) {
        return Err(refused_by(Refusal::TooMany));
    }
    Ok(account)
}
