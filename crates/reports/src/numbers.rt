// Arithmetic of the test programs, which shares no code with what they test.

// Lehmer's generator: the state after this one.
pub fn next(seed: u64) -> u64 {
    seed % 2147483647 * 48271 % 2147483647
}
