// The head of a book: what its edition says, and the checks 1 to 4.

#![tactic(auto)]

ghost use Rattle.std.specs.Prelude.{◌≡◌, ◌<◌, length};
ghost use Rattle.chain.specs.Decisions.{Tells};
ghost use Rattle.heads.specs.Heads.{edition, by_edition, head, Headed, count_of_pairs, LengthRight, EditionRight, StepsRight, CountsRight};

use encoding::word;

// ---- what the edition says

// `second` in edition 2, and `other` otherwise. The edition stays a byte: the head's length is asked for before check 2 looks at it.
fn by_edition(b: &[u8], second: usize, other: usize) -> usize
    requires { 0 < length b.now }
    ensures { result ≡ by_edition (edition b.now) second other }
{
    if b[0] == 2 { second } else { other }
}

// How long the head is.
pub fn head_of(b: &[u8]) -> usize
    requires { 0 < length b.now }
    ensures { result ≡ head (edition b.now) }
{
    by_edition(b, 22, 18)
}

// How many pairs of roles there are.
pub fn count_pairs(b: &[u8]) -> usize
    requires { Headed b.now }
    ensures value { result ≡ count_of_pairs b.now }
    ensures upper_bound { result < 65536 }
{
    if b[0] == 2 { word(b, 20) } else { 0 }
}

// ---- the checks 1 to 4

pub fn length_right(b: &[u8]) -> bool
    ensures { Tells result (LengthRight b.now) }
{
    if b.is_empty() {
        return false;
    }
    head_of(b) <= b.len() && b.len() <= by_edition(b, 982, 850)
}

pub fn edition_right(b: &[u8]) -> bool
    requires { Headed b.now }
    ensures { Tells result (EditionRight b.now) }
{
    b[0] == 1 || b[0] == 2
}

pub fn steps_right(b: &[u8]) -> bool
    requires { Headed b.now }
    ensures { Tells result (StepsRight b.now) }
{
    matches!(b[1], 1..=8)
}

pub fn counts_right(b: &[u8]) -> bool
    requires { Headed b.now }
    ensures { Tells result (CountsRight b.now) }
{
    word(b, 4) <= 64
        && word(b, 8) <= 64
        && word(b, 12) <= 64
        && word(b, 16) <= 64
        && count_pairs(b) <= 64
}
