// What is judged once for 1 to 3, and once for 4 and 5.
ghost use Rattle.std.specs.Prelude.{◌≡◌};
ghost use Rattle.std.proofs.Props.{props};
ghost use Rattle.categories.specs.Brakes.{brakes_of};
ghost use Rattle.categories.specs.Categories.{line_speed};
ghost use Rattle.rules.specs.Books.{broken_by};
ghost use Rattle.rules.specs.Families.{first_rule, still_of};
ghost use Rattle.rules.specs.CrossBorder.{common_rules, family_rules, cross_border};
ghost use Rattle.rules.specs.Grants.{offer_of};

use crate::grant::Offer;
use crate::rule::{common_rules, family_rules, first_rule};
use categories::brake::Brakes;
use categories::category::{Category, Weigh};
use facts::Facts;
use order::Order;

// Categories that weigh alike and are asked the same rules but for 30 and 47, of one train on one order. Domestic has its own: the rules differ, and so what is held.
#[derive(Drop)]
pub(crate) struct Family {
    pub(crate) isg: bool,
    pub(crate) weigh: Weigh,
    pub(crate) facts: Facts,
    pub(crate) order: Order,
    // the first broken of 15 to 23, and of 31 to 44
    common: Option<u8>,
    own: Option<u8>,
    brakes: Brakes,
    ghost common_is: { common ≡ first_rule (common_rules facts) } by { Prim.hlevel props },
    ghost own_is: { own ≡ first_rule (family_rules (still_of isg order) facts) } by { Prim.hlevel props },
    ghost brakes_are: { brakes ≡ brakes_of weigh facts },
}

impl Family {
    // Put where it is called, as what follows is: the rules of the other family then fall away, a twelfth of what a book decides.
    #[inline(always)]
    pub(crate) fn new(isg: bool, weigh: Weigh, f: Facts, o: Order) -> Family
        ensures { (result.isg ≡ isg) × (result.weigh ≡ weigh) × (result.facts ≡ f) × (result.order ≡ o) }
    {
        Family {
            isg: isg,
            weigh: weigh,
            facts: f,
            order: o,
            common: first_rule(&common_rules(f)),
            own: first_rule(&family_rules(isg, f, o)),
            brakes: weigh.brakes(f),
        }
    }

    // The first rule that a category of the family breaks, or 0, as `broken_by` gives it. The family says beside which rows it stands: a row is the table's.
    #[inline(always)]
    fn broken_by(&self, c: Category, line: u8) -> u8
        requires alike { (c.isg ≡ self.now.isg) × (c.weigh ≡ self.now.weigh) }
        requires line_value { line ≡ line_speed c self.now.order }
        ensures { result ≡ broken_by cross_border c self.now.facts self.now.order }
    {
        let short = self.brakes.is_short(c, self.facts, self.order);
        self.common
            .or((line == 0).then_some(30))
            .or(self.own)
            .or(short.then_some(47))
            .unwrap_or(0)
    }

    // Domestic has these lines too: a trait of families for the two would be longer than they are.
    #[tactic(auto, unfolding(crate::specs::Grants::offer_of, categories::specs::Categories::speed_of))]
    #[inline(always)]
    pub(crate) fn offered(&self, c: Category) -> Offer
        requires { (c.isg ≡ self.now.isg) × (c.weigh ≡ self.now.weigh) }
        ensures { result ≡ offer_of cross_border self.now.facts self.now.order c }
    {
        let line = c.line_speed(self.order);
        Offer {
            number: c.number,
            speed: c.speed_on(line, self.facts.slowest),
            broken: self.broken_by(c, line),
        }
    }
}
