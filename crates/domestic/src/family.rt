// What is judged once for ME, and once for MA.
ghost use Rattle.std.specs.Prelude.{◌≡◌, ◌≤◌};
ghost use Rattle.categories.specs.Brakes.{brakes_of};
ghost use Rattle.categories.specs.Categories.{line_speed};
ghost use Rattle.rules.specs.Books.{broken_by};
ghost use Rattle.rules.specs.Grants.{offer_of};
ghost use Rattle.domestic.specs.Rules.{domestic};
ghost use Rattle.domestic.specs.Words.{base_of};

use crate::rule::{alone_above, base_of, number_at, own_ma, own_me};
use categories::brake::Brakes;
use categories::category::{Category, Weigh};
use facts::Facts;
use order::Order;
use rules::grant::Offer;

// The categories of ME, or of MA, of one train on one order.
#[derive(Drop)]
pub(crate) struct Family {
    pub(crate) isma: bool,
    pub(crate) weigh: Weigh,
    pub(crate) facts: Facts,
    pub(crate) order: Order,
    // all that they break alike
    base: u32,
    brakes: Brakes,
    ghost base_is: { base ≡ base_of isma facts order },
    ghost base_fits: { base ≤ 536870911 },
    ghost brakes_are: { brakes ≡ brakes_of weigh facts },
}

impl Family {
    pub(crate) fn new(isma: bool, weigh: Weigh, f: Facts, o: Order) -> Family
        ensures { (result.isma ≡ isma) × (result.weigh ≡ weigh) × (result.facts ≡ f) × (result.order ≡ o) }
    {
        Family {
            isma: isma,
            weigh: weigh,
            facts: f,
            order: o,
            base: base_of(isma, f, o),
            brakes: weigh.brakes(f),
        }
    }

    // The first rule that a category of the family breaks, or 0, as `broken_by` gives it. MA is a const, so that each of the two holds one's own rules alone.
    // Put where it is called, so that the category's figures are known there: called, a sheet costs several times as much.
    #[inline(always)]
    fn broken_by<const MA: bool>(&self, c: Category, line: u8) -> u8
        requires alike { (c.isg ≡ MA) × (self.now.isma ≡ MA) × (c.weigh ≡ self.now.weigh) }
        requires line_value { line ≡ line_speed c self.now.order }
        ensures { result ≡ broken_by domestic c self.now.facts self.now.order }
    {
        let short = self.brakes.is_short(c, self.facts, self.order);
        if MA {
            number_at(self.base + own_ma(c.speed, line, short, self.facts))
        } else {
            number_at(self.base + own_me(c.speed, alone_above(c.speed), line, short, self.facts))
        }
    }

    // As the families of rules: a trait for the two would be longer than these lines.
    #[tactic(auto, unfolding(rules::specs::Grants::offer_of, categories::specs::Categories::speed_of))]
    #[inline(always)]
    pub(crate) fn offered<const MA: bool>(&self, c: Category) -> Offer
        requires { (c.isg ≡ MA) × (self.now.isma ≡ MA) × (c.weigh ≡ self.now.weigh) }
        ensures { result ≡ offer_of domestic self.now.facts self.now.order c }
    {
        let line = c.line_speed(self.order);
        Offer {
            number: c.number,
            speed: c.speed_on(line, self.facts.slowest),
            broken: self.broken_by::<MA>(c, line),
        }
    }
}
