// The domestic rules: all that are broken as one word, a bit a rule, the lowest for the rule asked first; and the first of them.
// A word, since a category's own bits are then added to what it breaks with the others of ME, or of MA: with all rules asked of each category a sheet costs half again.
ghost use Rattle.std.specs.Prelude.{◌≡◌, ◌≤◌, get_or};
ghost use Rattle.std.specs.Int.Count.{count_trailing_zeros};
ghost use Rattle.facts.specs.declared.Facts.{Facts as Figures};
ghost use Rattle.rules.specs.Rules.{numbers_of, marks_of};
ghost use Rattle.domestic.specs.Rules.{domestic_rules, alone_above};
ghost use Rattle.domestic.specs.Words.{word_of, still_of, base_of, own_me, own_ma};
ghost use Rattle.domestic.specs.declared.rule.Terms.{Terms as Asked};

use facts::Facts;
use order::Order;

// What a category and the order ask beside the facts.
#[derive(Clone, Copy)]
pub(crate) struct Terms {
    // its own
    pub(crate) speed: u8,
    pub(crate) isma: bool,
    // the line's speed, 0 where every column is missing
    pub(crate) line: u8,
    // the hauled mass of ME above which every working engine is set to M
    pub(crate) alone: u32,
    pub(crate) coupling: u32,
    pub(crate) admissible: u32,
    // braked mass too small
    pub(crate) short: bool,
}

// Rule 62: 1,200 t in ME140, 800 t in ME120 and ME100 (1602.2).
pub(crate) fn alone_above(speed: u8) -> u32
    ensures { result ≡ alone_above speed }
{
    if speed == 140 { 12000 } else { 8000 }
}

fn still_terms(isma: bool, f: Facts, o: Order) -> Terms
    ensures { result ≡ still_of isma f o }
{
    Terms {
        speed: 0,
        isma: isma,
        line: 1,
        alone: f.hauledMass,
        coupling: o.coupling,
        admissible: o.admissible,
        short: false,
    }
}

// Whether each of 60 to 88 is broken, in the order they are asked.
fn marks_of(t: Terms, f: Facts) -> [bool; 29]
    ensures { result ≡ marks_of (domestic_rules t f) }
{
    let g = t.isma;
    [
        f.hauledMass > t.coupling,
        t.line == 0,
        f.workingNotM & (g | (f.hauledMass > t.alone)),
        f.hauledMass > t.admissible,
        !g & (t.speed == 140) & (f.dloads > 0),
        f.notJoined,
        !g & (t.speed > f.slowestHauled),
        !g & (t.speed > 100) & f.fewWagons,
        !g & (f.trainLength > 7500),
        !g & ((f.hauledMass > 16000) | (f.hauledMass > 12000) & !f.long),
        !g & f.behind,
        !g & f.long & f.hauledEngineNotM,
        !g & (f.engines > 3),
        !g & (t.speed > f.slowestWorking),
        !g & (f.afterFifthM | f.hauledM & !f.long),
        !g & f.firstIsolated,
        !g & f.lastIsolated,
        !g & t.short,
        g & (t.speed > f.slowestHauled),
        g & (f.trainLength > 7500),
        g & f.hauledEngineNotM,
        g & f.behind,
        g & (f.engines > 6),
        g & (t.speed > f.slowestWorking),
        g & (f.vmass > 2000),
        g & f.firstIsolated,
        g & f.lastIsolated,
        g & (f.longest > 10),
        g & t.short,
    ]
}

// Mark i is bit i.
fn word_of(marks: &[bool; 29]) -> u32
    ensures { result ≡ word_of marks.now }
{
    marks
        .iter()
        .rev()
        .copied()
        .fold(0, |word, mark| word << 1 | u32::from(mark))
}

// All that the categories of ME, or of MA, break alike.
pub(crate) fn base_of(isma: bool, f: Facts, o: Order) -> u32
    ensures { (result ≡ base_of isma f o) × (result ≤ 536870911) }
{
    word_of(&marks_of(still_terms(isma, f, o), f))
}

// 61, 62, 64, 66, 67, 73, 77, each at its bit; without the rest of `Terms`, which they do not read.
pub(crate) fn own_me(speed: u8, alone: u32, line: u8, short: bool, f: Facts) -> u32
    ensures { (result ≡ own_me speed alone line short f) × (result ≤ 139478) }
{
    2 * u32::from(line == 0)
        + 4 * u32::from(f.workingNotM & (f.hauledMass > alone))
        + 16 * u32::from((speed == 140) & (f.dloads > 0))
        + 64 * u32::from(speed > f.slowestHauled)
        + 128 * u32::from((speed > 100) & f.fewWagons)
        + 8192 * u32::from(speed > f.slowestWorking)
        + 131072 * u32::from(short)
}

// 61, 78, 83, 88, each at its bit.
pub(crate) fn own_ma(speed: u8, line: u8, short: bool, f: Facts) -> u32
    ensures { (result ≡ own_ma speed line short f) × (result ≤ 277086210) }
{
    2 * u32::from(line == 0)
        + 262144 * u32::from(speed > f.slowestHauled)
        + 8388608 * u32::from(speed > f.slowestWorking)
        + 268435456 * u32::from(short)
}

// The number of the rule at the lowest bit, or 0: the numbers run from 60 to 88.
pub(crate) fn number_at(word: u32) -> u8
    ensures { (t : Asked) (f : Figures) → result ≡ get_or (numbers_of (domestic_rules t f)) (count_trailing_zeros 32 word) 0 }
{
    let place = word.trailing_zeros();
    if place < 29 { (60 + place) as u8 } else { 0 }
}
