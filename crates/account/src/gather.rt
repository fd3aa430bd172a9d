// What the loop over a portion gathers of the records so far.
ghost use Rattle.std.specs.Prelude.{◌≡◌, [], ◌≤◌, set};
ghost use Rattle.record.specs.Records.{record_count};
ghost use Rattle.record.specs.Vehicles.{vehicles};
ghost use Rattle.account.specs.Accounts.{account_of};
ghost use Rattle.lists.specs.Words.{Every};
ghost use Rattle.account.specs.Groupings.{GoodHauled};
ghost use Rattle.account.specs.Gathering.{SumsRoom, Room, sums_with, gathered, with_one};

use crate::Account;
use record::vehicle::{Kind, Setting, Vehicle, leading_engines, leading_isolated};

// The sums of the records that are set alike.
#[derive(Clone, Copy)]
pub(crate) struct Sums {
    pub(crate) count: u32,
    pub(crate) vmass: u32,
    pub(crate) mmass: u32,
    pub(crate) axles: u32,
    pub(crate) length: u32,
}

impl Sums {
    const NONE: Sums = Sums {
        count: 0,
        vmass: 0,
        mmass: 0,
        axles: 0,
        length: 0,
    };

    #[tactic(auto, unfolding(crate::specs::Gathering::sums_with))]
    fn add(&mut self, v: Vehicle)
        requires { SumsRoom self.old v }
        ensures { self.new ≡ sums_with self.old v }
    {
        self.count += 1;
        self.vmass += v.vmass;
        self.mmass += v.mmass;
        self.axles += v.axles;
        self.length += v.length;
    }
}

// The figures of the records so far.
#[derive(Clone, Copy)]
pub(crate) struct Gathered {
    // isolated, M, V, R
    pub(crate) by_setting: [Sums; 4],
    pub(crate) count: u32,
    pub(crate) mass: u32,
    pub(crate) length: u32,
    pub(crate) axles: u32,
    pub(crate) engines: u32,
    pub(crate) dloads: u32,
    pub(crate) joined: u32,
    pub(crate) trailing: u32,
    pub(crate) longest: u32,
    pub(crate) rule18: bool,
    pub(crate) slowest: u32,
    // the settings of the first five, 4 where there is none: numbers, as in the account
    pub(crate) first: [u32; 5],
    pub(crate) enginemmass: u32,
    pub(crate) wagonvmass: u32,
    pub(crate) enginenotm: bool,
}

// Sets the setting at place `i`, where it is one of the first five.
fn set_at(first: &mut [u32; 5], i: usize, setting: u32)
    ensures { first.new ≡ set first.old i setting }
{
    if i < 5 {
        first[i] = setting;
    }
}

impl Gathered {
    #[tactic(auto, unfolding(crate::specs::Gathering::gathered, crate::specs::Gathering::sums_of))]
    pub(crate) fn new() -> Gathered
        ensures { result ≡ gathered [] }
    {
        Gathered {
            by_setting: [Sums::NONE; 4],
            count: 0,
            mass: 0,
            length: 0,
            axles: 0,
            engines: 0,
            dloads: 0,
            joined: 0,
            trailing: 0,
            longest: 0,
            rule18: false,
            slowest: 200,
            first: [4; 5],
            enginemmass: 0,
            wagonvmass: 0,
            enginenotm: false,
        }
    }

    // One record more.
    pub(crate) fn add(&mut self, v: Vehicle)
        requires { Room self.old v }
        ensures { self.new ≡ with_one self.old v }
    {
        let isolated = v.setting == Setting::Isolated;
        let set_to_m = v.setting == Setting::M;
        let wagon = v.kind == Kind::Wagon;
        let engine = v.kind == Kind::HauledEngine;
        let trailing = if isolated { self.trailing + 1 } else { 0 };
        let enginemmass = if engine & set_to_m { v.mmass } else { 0 };
        let wagonvmass = if wagon & set_to_m { v.vmass } else { 0 };
        self.by_setting[v.setting as usize].add(v);
        set_at(&mut self.first, self.count as usize, v.setting as u32);
        self.count += 1;
        self.mass += v.mass;
        self.length += v.length;
        self.axles += v.axles;
        self.engines += u32::from(engine);
        self.dloads += u32::from(v.dload);
        self.joined += u32::from(v.joined);
        self.trailing = trailing;
        self.longest = self.longest.max(trailing);
        self.rule18 |= wagon & v.matrossow & !isolated;
        self.slowest = self.slowest.min(v.speed);
        self.enginemmass += enginemmass;
        self.wagonvmass += wagonvmass;
        self.enginenotm |= engine & !set_to_m;
    }

    // The account of the portion that this is gathered of. The runs in front are found apart, where it is read no further than they go.
    pub(crate) fn account(self, portion: &[u8]) -> Account
        requires portion_bound { record_count portion.now ≤ 200 }
        requires each { Every GoodHauled (vehicles portion.now) }
        requires gathered { self ≡ gathered (vehicles portion.now) }
        ensures { result ≡ account_of (vehicles portion.now) }
    {
        let [isolated, m, v, r] = self.by_setting;
        let leading = leading_isolated(portion) as u32;
        let engines_ahead = leading_engines(portion) as u32;
        Account {
            count: self.count,
            mass: self.mass,
            vmass: v.vmass,
            mmass: m.mmass,
            length: self.length,
            axles: self.axles,
            vaxles: v.axles,
            engines: self.engines,
            mset: m.count,
            isolated: isolated.count,
            dloads: self.dloads,
            leading,
            trailing: self.trailing,
            longest: self.longest,
            behind: engines_ahead < self.engines,
            rule16: 0 < r.count,
            rule17: self.joined < self.count,
            rule18: self.rule18,
            slowest: self.slowest,
            first: self.first,
            vlength: v.length,
            enginemmass: self.enginemmass,
            wagonvmass: self.wagonvmass,
            enginenotm: self.enginenotm,
        }
    }
}
