// The figures of a working engine.
ghost use Rattle.std.specs.Prelude.{◌≡◌, [], ◌∷◌};
ghost use Rattle.record.specs.Vehicles.{reading};
ghost use Rattle.facts.specs.Engines.{engines_of, taken};

use record::vehicle::{Setting, Vehicle, read};

#[derive(Clone, Copy)]
pub(crate) struct Engines {
    pub count: u32,
    pub mass: u32,
    pub length: u32,
    pub axles: u32,
    // V masses and axles of engines set to V, M masses of engines set to M
    pub vmass: u32,
    pub mmass: u32,
    pub vaxles: u32,
    // one is not set to M; one is set to R; one is not joined to the pipe
    pub notm: bool,
    pub setr: bool,
    pub unjoined: bool,
    pub slowest: u32,
    pub dloads: u32,
    pub isolated: u32,
}

// No engine's figures, and no None: sums go over two engines where there may be one (`both_of`).
const NONE: Engines = Engines {
    count: 0,
    mass: 0,
    length: 0,
    axles: 0,
    vmass: 0,
    mmass: 0,
    vaxles: 0,
    notm: false,
    setr: false,
    unjoined: false,
    slowest: 200,
    dloads: 0,
    isolated: 0,
};

// One engine's.
#[tactic(auto, unfolding(crate::specs::Engines::engines_of))]
fn one_engine(v: Vehicle) -> Engines
    ensures { result ≡ engines_of (v ∷ []) }
{
    Engines {
        count: 1,
        mass: v.mass,
        length: v.length,
        axles: v.axles,
        vmass: if v.setting == Setting::V { v.vmass } else { 0 },
        mmass: if v.setting == Setting::M { v.mmass } else { 0 },
        vaxles: if v.setting == Setting::V { v.axles } else { 0 },
        notm: v.setting != Setting::M,
        setr: v.setting == Setting::R,
        unjoined: !v.joined,
        slowest: v.speed.min(200),
        dloads: u32::from(v.dload),
        isolated: u32::from(v.setting == Setting::Isolated),
    }
}

// The figures of the engine that a record says, where it is good.
#[tactic(auto, unfolding(crate::specs::Engines::engines_of))]
pub(crate) fn engine_at(bytes: &[u8]) -> Engines
    ensures { result ≡ engines_of (taken (reading bytes.now)) }
{
    match read(bytes) {
        Some(v) => one_engine(v),
        None => NONE,
    }
}
