// Braked mass and margin of a category.
ghost use Rattle.std.specs.Prelude.{◌≡◌, pos};
ghost use Rattle.std.specs.Int.Signed.{lt_z};
ghost use Rattle.categories.specs.Brakes.{begun_of, parts_of, deduction_of, brakes_of, margin_with, margin_for, braked_of};

use crate::category::{Category, Weigh};
use facts::Facts;
use margin::Braked;
use order::Order;

// The begun 20 m by which a length passes 500 m (note 7).
fn begun(length: u32) -> u32
    ensures { result ≡ begun_of length }
{
    (length.saturating_sub(5000) + 199) / 200
}

// What brakes in the categories that weigh alike: the parts of Q, and k.
#[derive(Clone, Copy)]
pub struct Brakes {
    pub parts: Braked,
    pub k: u8,
}

impl Weigh {
    fn parts(self, f: Facts) -> Braked
        ensures { result ≡ parts_of self f }
    {
        match self {
            Weigh::ThreeQuarters => Braked {
                set: f.vmass,
                whole: 0,
                reduced: f.mmass,
            },
            Weigh::Whole => Braked {
                set: f.vmass,
                whole: f.mmass,
                reduced: 0,
            },
            Weigh::Long => Braked {
                set: f.vmass,
                whole: f.enginesMMass,
                reduced: f.wagonsVMass,
            },
        }
    }

    // k, of the hauled vehicles braked in V, at most 10 (note 7).
    fn deduction(self, f: Facts) -> u8
        ensures { result ≡ deduction_of self f }
    {
        match self {
            Weigh::ThreeQuarters => begun(f.hauledVLength).min(10) as u8,
            Weigh::Whole | Weigh::Long => 0,
        }
    }

    pub fn brakes(self, f: Facts) -> Brakes
        ensures { result ≡ brakes_of self f }
    {
        Brakes {
            parts: self.parts(f),
            k: self.deduction(f),
        }
    }
}

impl Brakes {
    fn margin(self, c: Category, f: Facts, o: Order) -> i64
        ensures { result ≡ margin_with self c f o }
    {
        margin::margin(self.parts, self.k, c.percentage_on(f, o), f.trainMass)
    }

    // Rules 47, 77 and 88, of a category that these are the brakes of.
    pub fn is_short(self, c: Category, f: Facts, o: Order) -> bool
        ensures { result ≡ lt_z (margin_with self c f o) (pos 0) }
    {
        self.margin(c, f, o) < 0
    }
}

// The exact margin, in 4,000ths of a tonne.
#[tactic(auto, unfolding(crate::specs::Brakes::margin_for))]
pub fn margin_for(c: Category, f: Facts, o: Order) -> i64
    ensures { result ≡ margin_for c f o }
{
    c.weigh.brakes(f).margin(c, f, o)
}

// Braked mass after deduction, in tenths rounded down.
#[tactic(auto, unfolding(crate::specs::Brakes::braked_of))]
pub fn braked_of(c: Category, f: Facts) -> u64
    ensures { result ≡ braked_of c f }
{
    let brakes = c.weigh.brakes(f);
    margin::left(brakes.parts, brakes.k)
}
