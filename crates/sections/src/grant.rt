// The category that a train is granted on every section of a route, and its speed on each.
ghost use Rattle.std.specs.Prelude.{◌≡◌, []};
ghost use Rattle.books.specs.Books.{book_of};
ghost use Rattle.sections.specs.Routes.{book_on, granted_on, speeds_on};
ghost use Rattle.sections.specs.Gathering.{unbroken, offer_in_front, in_front, offers_on};
ghost use Rattle.sections.specs.Sections.{sections_of, laid_over};

use crate::section::{first_section, sections_in};
use books::decide;
use categories::category::{Category, category_of};
use facts::Facts;
use order::{Book, read_order};
use rules::grant::{Best, Offer, choose};
use std::array;

// Before any section a category breaks no rule, and has its own speed.
fn unbroken(c: Category) -> Offer
    ensures { result ≡ unbroken c }
{
    if c.number == 0 {
        return Offer::ABSENT;
    }
    Offer {
        number: c.number,
        speed: c.speed,
        broken: 0,
    }
}

fn on_no_section(book: Book) -> [Offer; 6]
    ensures { (f : Facts) → result ≡ offers_on (book_of book) f [] }
{
    [1, 2, 3, 4, 5, 6].map(|number| unbroken(category_of(book, number)))
}

// A category on a section in front of those further on: the first rule broken, and the lesser speed.
fn offer_in_front(here: Offer, further: Offer) -> Offer
    ensures { result ≡ offer_in_front here further }
{
    Offer {
        number: here.number,
        speed: here.speed.min(further.speed),
        broken: if here.broken == 0 {
            further.broken
        } else {
            here.broken
        },
    }
}

fn in_front(here: [Offer; 6], further: [Offer; 6]) -> [Offer; 6]
    ensures { result ≡ in_front here further }
{
    array::from_fn(|i| offer_in_front(here[i], further[i]))
}

// From the last section to the first, so that the first rule broken is the one that stays.
#[tactic(auto, using(crate::proofs::Gathers::all_left, crate::proofs::Gathers::one_less, crate::proofs::Gathers::none_left))]
fn offers_on(book: Book, f: Facts, orders: &[u8]) -> [Offer; 6]
    ensures { result ≡ offers_on (book_of book) f (sections_of orders.now) }
{
    let mut offers = on_no_section(book);
    // No fold, and a let: of a closure that gives an array, and of a call laid in one, no proof is had.
    for section in sections_in(orders).iter().rev() {
        let here = decide(book, f, read_order(section));
        let with_it = in_front(here.offers, offers);
        offers = with_it;
    }
    offers
}

// The category granted for the whole route, by the first section's book.
#[tactic(auto, using(crate::proofs::Gathers::granted_by))]
pub fn grant_on(f: Facts, orders: &[u8]) -> Option<Best>
    ensures { result ≡ granted_on (book_of (book_on (sections_of orders.now))) f (sections_of orders.now) }
{
    let first = first_section(orders);
    choose(first.asked, &offers_on(first.book, f, orders))
}

// Writes the speed on each section in the category of a number, as far as there are bytes lent.
pub fn put_speeds(number: u8, f: Facts, orders: &[u8], speeds: &mut [u8])
    ensures { speeds.new ≡ laid_over (speeds_on (book_of (book_on (sections_of orders.now))) number f (sections_of orders.now)) speeds.old }
{
    let c = category_of(first_section(orders).book, number);
    let sections = sections_in(orders);
    let n = sections.len().min(speeds.len());
    // An index: of what is written through a zipped `iter_mut` a proof knows the length alone.
    for (i, section) in sections[..n].iter().enumerate() {
        speeds[i] = c.speed_for(f, read_order(section));
    }
}
