// Numbers and bytes as text, put behind what stands in a line.
ghost use Rattle.std.specs.Prelude.{◌≡◌, ◌+◌, ◌*◌, ◌<◌, ◌≤◌, ◌++◌, max, length};
ghost use Rattle.arrayvec.specs.ArrayVec.{array_vec_len};
ghost use Rattle.bench.specs.Texts.{glyph_of, field, hex, bytes_text, last_field};

use arrayvec::ArrayVec;
use itoa::Buffer;

// Room for the longest line, which ROUTE's is.
pub(crate) type Line = ArrayVec<u8, 256>;

// Not by {:x}: no clause of std says that `write!` answers no error.
#[tactic(auto, unfolding(crate::specs::Texts::glyph_of))]
fn glyph(d: u8) -> u8
    requires { d < 16 }
    ensures { result ≡ glyph_of d }
{
    match d {
        0..=9 => b'0' + d,
        _ => b'a' + (d - 10),
    }
}

// A number and the space that parts it from the next field. Not by `write!`: no clause of std says that it answers no error.
pub(crate) fn put_field(n: usize, line: &mut Line)
    requires { array_vec_len line.old + 21 ≤ 256 }
    ensures { line.new.items ≡ line.old.items ++ field n }
{
    line.try_extend_from_slice(Buffer::new().format(n).as_bytes())
        .unwrap();
    line.push(b' ');
}

// Each byte in two hex digits; not by `write!` either.
fn put_hex(bytes: &[u8], line: &mut Line)
    requires { array_vec_len line.old + 2 * length bytes.now ≤ 256 }
    ensures { line.new.items ≡ line.old.items ++ hex bytes.now }
{
    for b in bytes {
        line.push(glyph(*b / 16));
        line.push(glyph(*b % 16));
    }
}

// Bytes in hex, or "-" if refused. A mark beside the bytes, as `bytes_text` and `last_field` of specs/ have it.
fn put_bytes(done: bool, bytes: &[u8], line: &mut Line)
    requires { array_vec_len line.old + max 1 (2 * length bytes.now) ≤ 256 }
    ensures { line.new.items ≡ line.old.items ++ bytes_text done bytes.now }
{
    if done {
        put_hex(bytes, line);
    } else {
        line.push(b'-');
    }
}

// The last field and the line feed that closes the line. Each of these asks for the room that it takes.
pub(crate) fn put_last(done: bool, bytes: &[u8], line: &mut Line)
    requires { array_vec_len line.old + max 1 (2 * length bytes.now) < 256 }
    ensures { line.new.items ≡ line.old.items ++ last_field done bytes.now }
{
    put_bytes(done, bytes, line);
    line.push(b'\n');
}
