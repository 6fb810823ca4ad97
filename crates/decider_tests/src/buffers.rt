// Room for the input and for a book; the buffers that the calls get, each longer than any call may write, and of A5 before; and what they hold afterwards.
ghost use Rattle.std.specs.Prelude.{◌≡◌, length};

use reports::text;

const BEFORE: u8 = 0xA5;

pub fn input() -> [u8; 131072]
    ensures { 131072 ≡ length result }
{
    [0; 131072]
}

pub fn book() -> [u8; 4096]
    ensures { 4096 ≡ length result }
{
    [0; 4096]
}

pub fn marks() -> [u8; 16448]
    ensures { 16448 ≡ length result }
{
    [BEFORE; 16448]
}

pub fn placement() -> [u8; 32]
    ensures { 32 ≡ length result }
{
    [BEFORE; 32]
}

pub fn sheet() -> [u8; 4352]
    ensures { 4352 ≡ length result }
{
    [BEFORE; 4352]
}

pub fn grid() -> [u8; 4096]
    ensures { 4096 ≡ length result }
{
    [0; 4096]
}

// Are the bytes from a place on as before?
pub fn kept(b: &[u8], from: usize) -> bool {
    b.len() <= from || b[from..].iter().all(|x| *x == BEFORE)
}

// How many of the first bytes are 1; more than there are bytes if one is neither 0 nor 1.
pub fn ones(b: &[u8], end: usize) -> usize {
    let mut count = 0usize;
    for i in 0..end {
        let x = text::byte(b, i);
        if 1 < x {
            return end.wrapping_add(1);
        }
        count = count.wrapping_add(usize::from(x));
    }
    count
}

// Do the first bytes read as the text says? One without digits says nothing.
pub fn begins(b: &[u8], said: &[u8]) -> bool {
    let mut wanted = [0u8; 512];
    let count = text::write(&mut wanted, said);
    for i in 0..count {
        if text::byte(b, i) != text::byte(&wanted, i) {
            return false;
        }
    }
    true
}

// Is the whole buffer as before but for the bytes that the text says?
pub fn is_said(b: &[u8], said: &[u8]) -> bool {
    let mut wanted = [BEFORE; 32];
    text::write(&mut wanted, said);
    b == wanted.as_slice()
}

// Are as many candidates marked as said, and is every byte past the candidates as before?
pub fn marked(b: &[u8], survivors: usize, candidates: usize) -> bool {
    ones(b, candidates) == survivors && kept(b, candidates)
}
