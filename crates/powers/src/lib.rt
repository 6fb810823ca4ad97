// Powers of 1 to 256, exact up to 16384: how many candidates a book has, where they are few enough to decide.

#![tactic(auto)]

ghost use Rattle.std.specs.Prelude.{◌≡◌, ◌+◌, ◌^◌};
ghost use Rattle.powers.specs.Bounded.{bounded};

// The number of candidates for `places` places on a chain of `steps` steps. Document 02, P3: "For every chain of 1 to 255 steps and up to 64 places it
// is proved to give the exact power up to 16,384, and above that only "more"", which is `None`. Once the product passes the limit there is no further factor: it fits
// whatever is asked, and there are at most 14 multiplications.
pub fn bounded_power(steps: u8, places: usize) -> Option<u64>
    ensures { result ≡ bounded ((steps + 1) ^ places) }
{
    if places == 0 {
        return Some(1);
    }
    // one grade: the product would never pass the limit, and the loop go through all places
    if steps == 0 {
        return Some(1);
    }
    let base = u64::from(steps) + 1;
    let mut power = base;
    for i in 1..places {
        power *= base;
        if 16384 < power {
            return None;
        }
    }
    Some(power)
}
