// Random books, drawn from templates. A byte of a template below 80 stands for itself. Of any other the low digit says how many values there are
// to draw from, and the high digit the lowest of them: 8 for 0, 9 for 1, A for 2, B for 4, C for 6.
use reports::numbers::next;

pub const SEED: u64 = 7;

fn lowest(digit: u8) -> u8 {
    match digit {
        9 => 1,
        10 => 2,
        11 => 4,
        12 => 6,
        _ => 0,
    }
}

fn value(code: u8, seed: u64) -> u8 {
    let values = code % 16;
    if code < 128 {
        return code;
    }
    if values == 0 {
        return code;
    }
    let step = (seed / 100 % u64::from(values) % 16) as u8;
    lowest(code / 16) % 8 + step
}

// Puts values in the places of the codes, and answers the generator's state after the last.
pub fn draw(b: &mut [u8], seed: u64) -> u64 {
    let mut state = seed;
    for i in 0..b.len() {
        state = next(state);
        b[i] = value(b[i], state);
    }
    state
}
