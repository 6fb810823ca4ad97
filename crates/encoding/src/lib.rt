// Bytes as numbers, numbers of two bytes, and the bits of a byte.

#![tactic(auto)]

ghost use Rattle.std.specs.Prelude.{◌≡◌, suc, ◌+◌, ◌<◌, length};
ghost use Rattle.std.proofs.lemmas.List.Edits.{sets};
ghost use Rattle.chain.specs.Decisions.{Tells};
ghost use Rattle.chain.specs.Lists.{highest};
ghost use Rattle.encoding.specs.Words.{word_at, word_bytes};
ghost use Rattle.encoding.specs.Bits.{Bit, bits_of};

// A byte as a number to count and index with.
pub fn wide(x: u8) -> usize
    ensures { (result ≡ x) × (result < 256) }
{
    x as usize
}

// A two-byte number, the high byte first.
#[tactic(auto, unfolding(crate::specs::Words::word_at))]
pub fn word(b: &[u8], at: usize) -> usize
    requires { at + 1 < length b.now }
    ensures { (result ≡ word_at b.now at) × (result < 65536) }
{
    usize::from(u16::from_be_bytes([b[at], b[at + 1]]))
}

// Writes one.
pub fn write_word(b: &mut [u8], at: usize, v: u16)
    requires { at + 1 < length b.old }
    ensures { b.new ≡ sets b.old at (word_bytes v) }
{
    b[at..at + 2].copy_from_slice(&v.to_be_bytes());
}

// ---- bits

// Is bit `i` of a byte set? A shift by i is the division by 2 to the i.
pub fn bit(x: u8, i: usize) -> bool
    requires { i < 8 }
    ensures { Tells result (Bit x i) }
{
    (x >> i) % 2 == 1
}

// One more than the highest bit that is set, or 0 where none is.
pub fn above_bits(x: u8) -> usize
    ensures { result ≡ highest suc (bits_of x) }
{
    (u8::BITS - x.leading_zeros()) as usize
}
