// The facts of a train that the rules and the sheet read, from its working engines and an account of what they haul.
#![tactic(auto)]

ghost use Rattle.std.specs.Prelude.{◌≡◌, not, ◌&&◌, ◌||◌, ◌+◌, ◌%◌};
ghost use Rattle.lists.specs.Words.{◌is◌};
ghost use Rattle.lists.specs.Figures.{some};
ghost use Rattle.facts.specs.Readings.{first_five_v_by, after_fifth_m_by, few_wagons_by};
ghost use Rattle.facts.specs.Engines.{both_of, engines_in};
ghost use Rattle.facts.specs.Facts.{beside_of, facts_beside, held};

use crate::engine::{Engines, engine_at};
use account::Account;
use record::vehicle::SIZE;

mod engine;

#[derive(Clone, Copy)]
pub struct Facts {
    pub hauledMass: u32,
    pub trainMass: u32,
    pub hauledLength: u32,
    // of the hauled set to V
    pub hauledVLength: u32,
    pub trainLength: u32,
    pub axles: u32,
    // working and hauled
    pub engines: u32,
    // V masses and axles of records set to V, M masses of records set to M
    pub vmass: u32,
    pub mmass: u32,
    pub vaxles: u32,
    // the longest run of hauled isolated
    pub longest: u32,
    // a hauled vehicle set to M, a working engine not set to M
    pub hauledM: bool,
    pub workingNotM: bool,
    // one of the first five hauled set to V, one after the fifth set to M
    pub firstFiveV: bool,
    pub afterFifthM: bool,
    pub firstIsolated: bool,
    pub lastIsolated: bool,
    // a hauled engine behind a wagon, a record set to R, one not joined, a wagon of rule 18
    pub behind: bool,
    pub setR: bool,
    pub notJoined: bool,
    pub matrossow: bool,
    pub slowest: u8,
    pub dloads: u8,
    pub isolated: u8,
    // request Six: M masses of engines set to M, V masses of wagons set to M
    pub enginesMMass: u32,
    pub wagonsVMass: u32,
    // a hauled engine not set to M, braked as a long locomotive, fewer than two wagons
    pub hauledEngineNotM: bool,
    pub long: bool,
    pub fewWagons: bool,
    // of the hauled, and of the working engines
    pub slowestHauled: u8,
    pub slowestWorking: u8,
}

// A sum of two engines' figures and an account's, in 32 bits.
fn figure(x: u32, y: u32, z: u32) -> u32
    ensures { result ≡ (x + y + z) % 4294967296 }
{
    x.wrapping_add(y).wrapping_add(z)
}

// A figure in a byte, cut off as `held` has it.
fn byte(x: u32) -> u8
    ensures { result ≡ x % 256 }
{
    (x % 256) as u8
}

// Of an account's settings 1 is M, 2 V, 3 R: numbers there, since any may come (`Account.first`).
fn first_five_v(a: Account) -> bool
    ensures { result ≡ first_five_v_by a }
{
    a.first.contains(&2)
}

// A hauled vehicle after the fifth is set to M: more are than of the first five.
fn after_fifth_m(a: Account) -> bool
    ensures { result ≡ after_fifth_m_by a }
{
    a.first.iter().filter(|s| **s == 1).count() < a.mset as usize
}

// Braked as a long locomotive: every working engine set to M, none of the first five set to V or R (000, 1403.2).
#[tactic(auto, using(crate::proofs::Counts::some_or))]
fn is_long(working_not_m: bool, a: Account) -> bool
    ensures { result ≡ (not working_not_m && not (some (λ s. s is 2 || s is 3) a.first)) }
{
    !working_not_m & !(a.first.contains(&2) | a.first.contains(&3))
}

// Fewer than 2 wagons.
fn few_wagons(a: Account) -> bool
    ensures { result ≡ few_wagons_by a }
{
    u64::from(a.count) < u64::from(a.engines) + 2
}

#[tactic(auto, using(crate::proofs::Counts::low_byte), unfolding(crate::specs::Facts::held, crate::specs::Facts::beside_of, crate::specs::Engines::both_of))]
fn beside(e: Engines, s: Engines, a: Account) -> Facts
    ensures { result ≡ held (beside_of (both_of e s) a) }
{
    Facts {
        hauledMass: a.mass,
        trainMass: figure(e.mass, s.mass, a.mass),
        hauledLength: a.length,
        hauledVLength: a.vlength,
        trainLength: figure(e.length, s.length, a.length),
        axles: figure(e.axles, s.axles, a.axles),
        engines: figure(e.count, s.count, a.engines),
        vmass: figure(e.vmass, s.vmass, a.vmass),
        mmass: figure(e.mmass, s.mmass, a.mmass),
        vaxles: figure(e.vaxles, s.vaxles, a.vaxles),
        longest: a.longest,
        hauledM: 0 < a.mset,
        workingNotM: e.notm | s.notm,
        firstFiveV: first_five_v(a),
        afterFifthM: after_fifth_m(a),
        firstIsolated: 0 < a.leading,
        lastIsolated: 0 < a.trailing,
        behind: a.behind,
        setR: e.setr | s.setr | a.rule16,
        notJoined: e.unjoined | s.unjoined | a.rule17,
        matrossow: a.rule18,
        slowest: byte(e.slowest.min(s.slowest).min(a.slowest)),
        dloads: byte(figure(e.dloads, s.dloads, a.dloads)),
        isolated: byte(figure(e.isolated, s.isolated, a.isolated)),
        enginesMMass: figure(e.mmass, s.mmass, a.enginemmass),
        wagonsVMass: a.wagonvmass,
        hauledEngineNotM: a.enginenotm,
        long: is_long(e.notm | s.notm, a),
        fewWagons: few_wagons(a),
        slowestHauled: byte(a.slowest),
        slowestWorking: byte(e.slowest.min(s.slowest)),
    }
}

// The facts of one or two working engines beside an account.
pub fn facts_beside(engines: &[u8], hauled: Account) -> Facts
    ensures { result ≡ held (facts_beside (engines_in engines.now) hauled) }
{
    let (first, second) = engines.split_at(engines.len().min(SIZE));
    beside(engine_at(first), engine_at(second), hauled)
}
