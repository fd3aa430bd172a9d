// Parts of an input, as far as it goes.
ghost use Rattle.std.specs.Prelude.{◌≡◌, ◌<◌, take, drop, get_or};

// The first so many bytes.
pub(crate) fn front(bytes: &[u8], n: usize) -> &[u8]
    ensures { result.now ≡ take n bytes.now }
{
    bytes.get(..n).unwrap_or(bytes)
}

// What follows them.
pub(crate) fn behind(bytes: &[u8], n: usize) -> &[u8]
    ensures { result.now ≡ drop n bytes.now }
{
    bytes.get(n..).unwrap_or_default()
}

// The first byte, 0 where there is none.
pub(crate) fn first(bytes: &[u8]) -> usize
    ensures { (result ≡ get_or bytes.now 0 0) × (result < 256) }
{
    bytes.first().copied().map_or(0, usize::from)
}
