// Pairs of bytes: the first index at which one byte stands in one slice and another byte in a second
// slice of the same length. A search of a phrase looks for hits by them: a byte at a position and
// another at a fixed distance from it.
#![tactic(auto)]

ghost use Rattle.std.specs.Prelude.{◌≡◌, ◌≤◌, length};
ghost use Rattle.base.specs.Lists.{nth as nth_of};
ghost use Rattle.pairs.specs.Pairs.{first_pair};

// The first index at which x stands in one of two short slices and y in the other, their length where
// there is none. The most bytes that are left at a pair are those at the first; no turn of the loop
// leaves it, and both bytes are compared before any test, so that many are compared at once.
fn first_few(here: &[u8], there: &[u8], x: u8, y: u8) -> u8
    requires { (length here.now ≡ length there.now) × (length here.now ≤ 255) }
    ensures { result ≡ first_pair x y here.now there.now }
{
    let count = here.len() as u8;
    let mut most: u8 = 0;
    let mut left = count;
    for (h, t) in here.iter().zip(there) {
        let one = *h == x;
        let other = *t == y;
        let at = if one & other { left } else { 0 };
        if most < at {
            most = at;
        }
        left -= 1;
    }
    count - most
}

// The first index at which x stands in one of two slices and y in the other, their length where there
// is none: in pieces of 128 bytes, and what is left after them.
pub fn next_pair(here: &[u8], there: &[u8], x: u8, y: u8) -> usize
    requires { length here.now ≡ length there.now }
    ensures { result ≡ first_pair x y here.now there.now }
{
    let mut i = 0;
    while 128 <= here.len() - i {
        let stop = i + 128;
        let at = i + usize::from(first_few(&here[i..stop], &there[i..stop], x, y));
        if at < stop {
            return at;
        }
        i = stop;
    }
    i + usize::from(first_few(&here[i..], &there[i..], x, y))
}

// The position of the first occurrence of a byte in a part, the part's length where there is none.
pub fn next_of(part: &[u8], byte: u8) -> usize
    ensures { result ≡ nth_of byte 0 part.now }
{
    next_pair(part, part, byte, byte)
}
