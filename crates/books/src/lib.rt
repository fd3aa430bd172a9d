// The two rule books: what is decided by the one that an order names, and when the mark byte is 1.
#![tactic(auto)]

ghost use Rattle.std.specs.Prelude.{◌≡◌};
ghost use Rattle.rules.specs.Grants.{decision_of};
ghost use Rattle.books.specs.Books.{book_of};

use domestic::grant::decide_domestic;
use facts::Facts;
use order::{Book, Order};
use rules::grant::{Decision, decide_cross_border};

// What is decided by the book, whichever the order itself names: on a route that is the first section's. Facts and order are two: the same facts meet each section's order.
// A match here and below: a trait that two unit types stand for would still be chosen by one.
#[tactic(auto, unfolding(crate::specs::Books::book_of))]
pub fn decide(book: Book, f: Facts, o: Order) -> Decision
    ensures { result ≡ decision_of (book_of book) f o }
{
    match book {
        Book::CrossBorder => decide_cross_border(f, o),
        Book::Domestic => decide_domestic(f, o),
    }
}

// Whether the mark byte of a sheet is 1: in 1 to 3, above 1,200 t (byte 14), or braked as a long locomotive, at any hauled mass (byte 15; 000, 1403.2).
#[tactic(auto, unfolding(crate::specs::Books::book_of, rules::specs::CrossBorder::cross_border, domestic::specs::Rules::domestic))]
pub fn is_marked(book: Book, asked: u8, f: Facts) -> bool
    ensures { result ≡ (book_of book).mark asked f }
{
    let me = (1 <= asked) & (asked <= 3);
    match book {
        Book::CrossBorder => me & (12000 < f.hauledMass),
        Book::Domestic => me & f.long,
    }
}
