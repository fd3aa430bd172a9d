// The vehicle that holds the speed, out of two portions in order.
#![tactic(auto)]

ghost use Rattle.std.specs.Prelude.{◌≡◌, ◌++◌, option_copied};
ghost use Rattle.std.specs.List.{reduce};
ghost use Rattle.speed.specs.Speed.{slower, whole_good, holds_the_speed};

use record::vehicle::{MOST, SIZE, first_bad};

fn is_whole_good(portion: &[u8]) -> bool
    ensures { result ≡ whole_good portion.now }
{
    portion.len().is_multiple_of(SIZE) && first_bad(portion).is_none()
}

// The slowest of the records of two portions in order, and of those that are as slow the first.
fn slowest<'a>(front: &'a [[u8; SIZE]], back: &'a [[u8; SIZE]]) -> Option<&'a [u8; SIZE]>
    ensures { option_copied result ≡ reduce slower (front.now ++ back.now) }
{
    front
        .iter()
        .chain(back)
        .reduce(|best, next| if next[20] < best[20] { next } else { best })
}

// The bytes of the vehicle that holds the speed, out of whichever portion has it; where there is none an empty part and no None, as `holds_the_speed` and C have it.
pub fn holds_the_speed<'a>(front: &'a [u8], back: &'a [u8]) -> &'a [u8]
    ensures { result.now ≡ holds_the_speed front.now back.now }
{
    if !(is_whole_good(front) & is_whole_good(back)) {
        return &front[..0];
    }
    let (ahead, _) = front.as_chunks::<SIZE>();
    let (behind, _) = back.as_chunks::<SIZE>();
    if MOST < ahead.len() + behind.len() {
        return &front[..0];
    }
    match slowest(ahead, behind) {
        Some(record) => record,
        None => &front[..0],
    }
}
