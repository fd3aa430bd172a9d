// The sheet: its figures, and its bytes.
#![tactic(auto)]

ghost use Rattle.std.specs.Prelude.{◌≡◌, ◌+◌, ◌≤◌};
ghost use Rattle.margin.specs.Margin.{tonnes_of, bytes_of};
ghost use Rattle.categories.specs.Brakes.{margin_for};
ghost use Rattle.books.specs.Books.{book_of};
ghost use Rattle.sheets.specs.Sheets.{sheet_length, figures_of, head_bytes, tail_bytes, common_by, laid, sheet_of, in_most};

use books::{decide, is_marked};
use categories::brake::{braked_of, margin_for};
use categories::category::{Category, category_of};
use facts::Facts;
use order::{Book, Order};
use rules::grant::Decision;

// The most bytes that a sheet has.
pub const MOST: usize = 33;

// The bytes up to the last rule's where there are six categories, and those behind the rules.
const HEAD: usize = 10;

const TAIL: usize = 23;

// The bytes of a sheet. A match: a trait of two books for a number would be no plainer.
pub fn length_of(book: Book) -> usize
    ensures { result ≡ sheet_length book }
{
    match book {
        Book::CrossBorder => 32,
        Book::Domestic => 33,
    }
}

#[derive(Clone, Copy)]
pub struct Sheet {
    pub asked: u8,
    // the first common rule broken, or 0: a number, since figures_of gives byte 3 as it is written
    pub common: u8,
    pub decision: Decision,
    pub dloads: u8,
    // of the asked category, as are its percentage and braked mass
    pub margin: [u8; 3],
    pub percentage: u8,
    // byte 14 or 15 as it is written
    pub mark: u8,
    pub isolated: u8,
    pub hauled: u32,
    pub train: u32,
    pub braked: u64,
    pub length: u32,
}

// The three bytes of a category's margin.
fn margin_bytes(c: Category, f: Facts, o: Order) -> [u8; 3]
    ensures { result ≡ bytes_of (tonnes_of (margin_for c f o)) }
{
    margin::three_bytes(margin::whole_tonnes(margin_for(c, f, o)))
}

// The common rules are the first that any cross-border category is asked, and their numbers go up to 23; the domestic book has none. A match as above.
fn common_of(book: Book, first: u8) -> u8
    ensures { result ≡ common_by book first }
{
    match book {
        Book::CrossBorder => if first <= 23 { first } else { 0 },
        Book::Domestic => 0,
    }
}

impl Sheet {
    // The figures by the order's book.
    #[tactic(auto, using(crate::proofs::Sheets::common_there, crate::proofs::Sheets::byte_of, books::proofs::Demands::book_rows), unfolding(crate::specs::Sheets::figures_of))]
    fn of(f: Facts, o: Order) -> Sheet
        ensures { result ≡ figures_of (book_of o.book) f o }
    {
        let c = category_of(o.book, o.asked);
        let decision = decide(o.book, f, o);
        Sheet {
            asked: o.asked,
            common: common_of(o.book, decision.offers[0].broken),
            decision: decision,
            dloads: f.dloads,
            margin: margin_bytes(c, f, o),
            percentage: c.percentage_on(f, o),
            mark: u8::from(is_marked(o.book, o.asked, f)),
            isolated: f.isolated,
            hauled: f.hauledMass,
            train: f.trainMass,
            braked: braked_of(c, f),
            length: f.trainLength,
        }
    }

    fn head(self) -> [u8; HEAD]
        ensures { result ≡ head_bytes self }
    {
        let [x1, x2, x3, x4, x5, x6] = self.decision.offers;
        let (granted, speed) = self
            .decision
            .granted
            .map_or((0, 0), |best| (best.number, best.speed));
        [
            self.asked,
            granted,
            speed,
            self.common,
            x1.broken,
            x2.broken,
            x3.broken,
            x4.broken,
            x5.broken,
            x6.broken,
        ]
    }

    // Of the braked mass, which is the one sum of 64 bits, the four low bytes.
    fn tail(self) -> [u8; TAIL]
        ensures { result ≡ tail_bytes self }
    {
        let [low, middle, high] = self.margin;
        let [h0, h1, h2, h3] = self.hauled.to_le_bytes();
        let [t0, t1, t2, t3] = self.train.to_le_bytes();
        let [b0, b1, b2, b3, ..] = self.braked.to_le_bytes();
        let [l0, l1, l2, l3] = self.length.to_le_bytes();
        [
            self.dloads,
            low,
            middle,
            high,
            self.percentage,
            self.mark,
            self.isolated,
            h0,
            h1,
            h2,
            h3,
            t0,
            t1,
            t2,
            t3,
            b0,
            b1,
            b2,
            b3,
            l0,
            l1,
            l2,
            l3,
        ]
    }
}

// The head, and over it the tail, which ends a sheet of so many bytes; zeros up to 33.
#[tactic(auto, using(crate::proofs::Sheets::two_copies))]
fn lay(head: [u8; HEAD], tail: [u8; TAIL], length: usize) -> [u8; MOST]
    requires { (23 ≤ length) × (length ≤ 33) }
    ensures { result ≡ laid head tail length }
{
    let mut line = [0u8; MOST];
    line[..HEAD].copy_from_slice(&head);
    line[length - TAIL..length].copy_from_slice(&tail);
    line
}

// The sheet by the order's book: 32 bytes and a 0, or 33: an array, for there is no heap. Facts and order are two, for on a route the same facts meet each section's order.
#[tactic(auto, using(crate::proofs::Sheets::laid_sheet, crate::proofs::Sheets::length_within))]
pub fn sheet_of(f: Facts, o: Order) -> [u8; MOST]
    ensures { result ≡ in_most (sheet_of (book_of o.book) f o) }
{
    let x = Sheet::of(f, o);
    lay(x.head(), x.tail(), length_of(o.book))
}
