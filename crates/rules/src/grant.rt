// What a train breaks in each category, and the category granted.
ghost use Rattle.std.specs.Prelude.{◌≡◌};
ghost use Rattle.rules.specs.Grants.{better_of, best_of, decided_by, decision_of};
ghost use Rattle.rules.specs.CrossBorder.{cross_border};

use crate::family::Family;
use categories::category::{Category, Weigh};
use facts::Facts;
use order::Order;

// A category as it is offered.
#[derive(Clone, Copy)]
pub struct Offer {
    pub number: u8,
    pub speed: u8,
    // the first rule it breaks, or 0: a number, since it is the sheet's byte, and `broken_by` and the theorems on it speak of 0
    pub broken: u8,
}

impl Offer {
    // A category that a book does not have breaks a rule of a number that no rule has, so that it never stands. No None: `absent_rule` and `absent_passed` speak of 255.
    pub const ABSENT: Offer = Offer {
        number: 0,
        speed: 0,
        broken: 255,
    };
}

// The number granted and its speed.
#[derive(Clone, Copy)]
pub struct Best {
    pub number: u8,
    pub speed: u8,
}

// What is decided of a train: what each category offers, and the category granted; six places, for the book that has most.
#[derive(Clone, Copy)]
pub struct Decision {
    pub offers: [Offer; 6],
    pub granted: Option<Best>,
}

// An offer that stands goes before the best of those behind it unless that one is faster.
fn better(asked: u8, x: Offer, rest: Option<Best>) -> Option<Best>
    ensures { result ≡ better_of asked x rest }
{
    let stands = (asked <= x.number) & (x.broken == 0);
    if stands & rest.is_none_or(|best| best.speed <= x.speed) {
        Some(Best {
            number: x.number,
            speed: x.speed,
        })
    } else {
        rest
    }
}

// The category granted of those offered, in the order of their numbers.
pub fn choose(asked: u8, offers: &[Offer]) -> Option<Best>
    ensures { result ≡ best_of asked offers.now }
{
    offers
        .iter()
        .rev()
        .copied()
        .fold(None, |rest, x| better(asked, x, rest))
}

// What is decided by them.
pub fn decided(asked: u8, offers: [Offer; 6]) -> Decision
    ensures { result ≡ decided_by asked offers }
{
    Decision {
        offers: offers,
        granted: choose(asked, &offers),
    }
}

// What is decided by the cross-border book. Beside the domestic one's: rules and rows differ, and a trait of the two would be longer.
pub fn decide_cross_border(f: Facts, o: Order) -> Decision
    ensures { result ≡ decision_of cross_border f o }
{
    let p = Family::new(false, Weigh::ThreeQuarters, f, o);
    let g = Family::new(true, Weigh::Whole, f, o);
    decided(
        o.asked,
        [
            p.offered(Category::ME120_P120),
            p.offered(Category::ME100_P100),
            p.offered(Category::MA100_P100),
            g.offered(Category::MA100_G100),
            g.offered(Category::MA90_G90),
            Offer::ABSENT,
        ],
    )
}
