// What a train breaks in each domestic category, and the category granted.
ghost use Rattle.std.specs.Prelude.{◌≡◌};
ghost use Rattle.rules.specs.Grants.{decision_of};
ghost use Rattle.domestic.specs.Rules.{domestic};

use crate::family::Family;
use categories::category::{Category, Weigh};
use facts::Facts;
use order::Order;
use rules::grant::{Decision, decided};

// What is decided by the domestic book. Beside the cross-border one's: rules and rows differ, and a trait of the two would be longer.
pub fn decide_domestic(f: Facts, o: Order) -> Decision
    ensures { result ≡ decision_of domestic f o }
{
    let me = Family::new(false, Weigh::Long, f, o);
    let ma = Family::new(true, Weigh::Whole, f, o);
    decided(
        o.asked,
        [
            me.offered::<false>(Category::ME140),
            me.offered::<false>(Category::ME120),
            me.offered::<false>(Category::ME100),
            ma.offered::<true>(Category::MA100),
            ma.offered::<true>(Category::MA90),
            ma.offered::<true>(Category::MA80),
        ],
    )
}
