// The orders of a route, one record a section.
ghost use Rattle.std.specs.Prelude.{◌≡◌};
ghost use Rattle.record.specs.Records.{records_of};
ghost use Rattle.sections.specs.Routes.{first_on};
ghost use Rattle.sections.specs.Sections.{sections_of, good_section, leading_good};

use order::{Order, is_good_order, read_order};
use record::vehicle::SIZE;

// The sections' records; bytes behind the last whole one are left out.
#[tactic(auto, using(record::proofs::Records::chunks_records))]
pub(crate) fn sections_in(orders: &[u8]) -> &[[u8; SIZE]]
    ensures { result.now ≡ records_of orders.now }
{
    orders.as_chunks::<SIZE>().0
}

// The first section, whose category and book are the route's; where there is none, the order of zeros.
#[tactic(auto, using(crate::proofs::Places::none_read, crate::proofs::Places::first_read, crate::proofs::Places::sections_read))]
pub(crate) fn first_section(orders: &[u8]) -> Order
    ensures { result ≡ first_on (sections_of orders.now) }
{
    match sections_in(orders) {
        [first, ..] => read_order(first),
        [] => read_order(&[]),
    }
}

// Refusal 4 is for a section that is not so. Two of an order's six figures are compared, so no derived ==.
#[tactic(auto, using(crate::proofs::Places::section_bad, crate::proofs::Places::section_good))]
fn is_good_section(first: Order, section: &[u8]) -> bool
    ensures { result ≡ good_section first.asked first.book section.now }
{
    if !is_good_order(section) {
        return false;
    }
    let o = read_order(section);
    (o.asked == first.asked) & (o.book == first.book)
}

// How many sections from the first on have every field in its range, ask for the first's category and name its book.
pub fn leading_good(orders: &[u8]) -> usize
    ensures { result ≡ leading_good orders.now }
{
    let first = first_section(orders);
    sections_in(orders)
        .iter()
        .take_while(|section| is_good_section(first, *section))
        .count()
}
