// Filling a list of bytes by the numbers of its entries, or of its blocks.

#![tactic(auto)]

ghost use Rattle.std.specs.Prelude.{◌≡◌, ◌++◌, ℕ, ◌*◌, ◌<◌, ◌≤◌, length, drop};
ghost use mathlib.Core.List.{List, flat_map};
ghost use Rattle.chain.specs.Lists.{table, from};

// Fills each byte by its number.
pub fn fill_each<F: Fn(usize) -> u8>(body: &mut [u8], f: F)
    requires { (i : ℕ) → i < length body.old → F.pre f i }
    ensures { (entry : ℕ → ℕ) → ((i r : ℕ) → i < length body.old → F.post f i r → r ≡ entry i)
        → body.new ≡ table entry (length body.old) }
{
    for i in 0..body.len() {
        body[i] = f(i);
    }
}

// Fills `n` blocks of one width, one after another, each by its number; the bytes past them are kept.
pub fn fill_blocks<F: Fn(usize, &mut [u8])>(n: usize, width: usize, body: &mut [u8], f: F)
    requires room { n * width ≤ length body.old }
    requires callable { (k : ℕ) (block : _) → k < n → length block.now ≡ width → F.pre f k block }
    ensures { (blocks : ℕ → List ℕ) → ((k : ℕ) → length (blocks k) ≡ width)
        → ((k : ℕ) (old new : _) → k < n → length old.now ≡ width → F.post f k old tt new → new.now ≡ blocks k)
        → body.new ≡ flat_map blocks (from 0 n) ++ drop (n * width) body.old }
{
    for k in 0..n {
        let start = k * width;
        f(k, &mut body[start..start + width]);
    }
}
