// The categories of both books: their tables, and what a row gives on a line.
ghost use Rattle.std.specs.Prelude.{◌≡◌, min};
ghost use Rattle.categories.specs.Categories.{rows_of, line_speed, speed_of, stepped, percentage_of, category_of};

use facts::Facts;
use order::{Book, Order};

// What a record set to M counts: three quarters of its M mass (note 8), the whole, or as a long locomotive (000, 1403.2).
#[derive(Clone, Copy)]
pub enum Weigh {
    ThreeQuarters,
    Whole,
    Long,
}

// The percentage by train length: at most each of three ends, and beyond.
#[derive(Clone, Copy)]
pub struct Steps {
    pub up_to: [(u32, u8); 3],
    pub beyond: u8,
}

impl Steps {
    fn at(self, length: u32) -> u8
        ensures { result ≡ stepped self length }
    {
        self.up_to
            .iter()
            .find(|(end, _)| length <= *end)
            .map_or(self.beyond, |(_, percentage)| *percentage)
    }
}

#[derive(Clone, Copy)]
pub struct Category {
    pub number: u8,
    pub speed: u8,
    pub percentage: Steps,
    // from ME140 as 0
    pub column: usize,
    // 4 and 5 of the cross-border book, MA of the domestic one
    pub isg: bool,
    pub weigh: Weigh,
}

impl Category {
    pub const ME120_P120: Category = Category {
        number: 1,
        speed: 120,
        percentage: Steps {
            up_to: [(0, 77); 3],
            beyond: 77,
        },
        column: 1,
        isg: false,
        weigh: Weigh::ThreeQuarters,
    };

    pub const ME100_P100: Category = Category {
        number: 2,
        speed: 100,
        percentage: Steps {
            up_to: [(0, 60); 3],
            beyond: 60,
        },
        column: 2,
        isg: false,
        weigh: Weigh::ThreeQuarters,
    };

    pub const MA100_P100: Category = Category {
        number: 3,
        speed: 100,
        percentage: Steps {
            up_to: [(0, 60); 3],
            beyond: 60,
        },
        column: 3,
        isg: false,
        weigh: Weigh::ThreeQuarters,
    };

    pub const MA100_G100: Category = Category {
        number: 4,
        speed: 100,
        percentage: Steps {
            up_to: [(0, 57); 3],
            beyond: 57,
        },
        column: 3,
        isg: true,
        weigh: Weigh::Whole,
    };

    pub const MA90_G90: Category = Category {
        number: 5,
        speed: 90,
        percentage: Steps {
            up_to: [(0, 50); 3],
            beyond: 50,
        },
        column: 4,
        isg: true,
        weigh: Weigh::Whole,
    };

    // The domestic ones (request Six).
    pub const ME140: Category = Category {
        number: 1,
        speed: 140,
        percentage: Steps {
            up_to: [(5500, 97), (6500, 102), (7500, 108)],
            beyond: 108,
        },
        column: 0,
        isg: false,
        weigh: Weigh::Long,
    };

    pub const ME120: Category = Category {
        number: 2,
        speed: 120,
        percentage: Steps {
            up_to: [(5500, 77), (6500, 81), (7500, 86)],
            beyond: 94,
        },
        column: 1,
        isg: false,
        weigh: Weigh::Long,
    };

    pub const ME100: Category = Category {
        number: 3,
        speed: 100,
        percentage: Steps {
            up_to: [(5500, 60), (6500, 63), (7500, 66)],
            beyond: 73,
        },
        column: 2,
        isg: false,
        weigh: Weigh::Long,
    };

    pub const MA100: Category = Category {
        number: 4,
        speed: 100,
        percentage: Steps {
            up_to: [(8000, 57), (9000, 64), (10000, 69)],
            beyond: 69,
        },
        column: 3,
        isg: true,
        weigh: Weigh::Whole,
    };

    pub const MA90: Category = Category {
        number: 5,
        speed: 90,
        percentage: Steps {
            up_to: [(8000, 50), (9000, 57), (10000, 61)],
            beyond: 61,
        },
        column: 4,
        isg: true,
        weigh: Weigh::Whole,
    };

    pub const MA80: Category = Category {
        number: 6,
        speed: 80,
        percentage: Steps {
            up_to: [(8000, 47), (9000, 55), (10000, 59)],
            beyond: 59,
        },
        column: 5,
        isg: true,
        weigh: Weigh::Whole,
    };

    // For a number that no category has. No Option: a sheet on an order that asks for none shows this one's percentage, and `none` defines it.
    const NONE: Category = Category {
        number: 0,
        speed: 0,
        percentage: Steps {
            up_to: [(0, 0); 3],
            beyond: 0,
        },
        column: 1,
        isg: false,
        weigh: Weigh::Whole,
    };

    // Its column's limit, or the first not missing to the right; 0 where there is none (000, article 1502), as `line_speed` and rules 30 and 61 have it.
    pub fn line_speed(self, o: Order) -> u8
        ensures { result ≡ line_speed self o }
    {
        o.limits
            .iter()
            .copied()
            .skip(self.column)
            .find(|limit| *limit != 0)
            .unwrap_or(0)
    }

    // The least of its own, the line's and the slowest record's.
    pub fn speed_on(self, line: u8, slowest: u8) -> u8
        ensures { result ≡ min self.speed (min line slowest) }
    {
        self.speed.min(line.min(slowest))
    }

    // Its speed on the line of an order. Facts and order are two parameters here and above, since `speed_of`, `percentage_of` and the other definitions take them so.
    #[tactic(auto, unfolding(crate::specs::Categories::speed_of))]
    pub fn speed_for(self, f: Facts, o: Order) -> u8
        ensures { result ≡ speed_of self f o }
    {
        self.speed_on(self.line_speed(o), f.slowest)
    }

    // p: the greater of the table's for the train's length and the German timetable's.
    #[tactic(auto, unfolding(crate::specs::Categories::percentage_of))]
    pub fn percentage_on(self, f: Facts, o: Order) -> u8
        ensures { result ≡ percentage_of self f o }
    {
        self.percentage.at(f.trainLength).max(o.german)
    }
}

// The category of a number in a book.
pub fn category_of(book: Book, number: u8) -> Category
    ensures { result ≡ category_of number (rows_of book) }
{
    match (book, number) {
        (Book::CrossBorder, 1) => Category::ME120_P120,
        (Book::CrossBorder, 2) => Category::ME100_P100,
        (Book::CrossBorder, 3) => Category::MA100_P100,
        (Book::CrossBorder, 4) => Category::MA100_G100,
        (Book::CrossBorder, 5) => Category::MA90_G90,
        (Book::Domestic, 1) => Category::ME140,
        (Book::Domestic, 2) => Category::ME120,
        (Book::Domestic, 3) => Category::ME100,
        (Book::Domestic, 4) => Category::MA100,
        (Book::Domestic, 5) => Category::MA90,
        (Book::Domestic, 6) => Category::MA80,
        _ => Category::NONE,
    }
}
