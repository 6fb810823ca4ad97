// Counts the cases of a group and those that differ, and prints them.
use std::io;

// `first` is the number of the first case that differs.
#[derive(Clone, Copy, Default)]
pub struct Tally {
    pub cases: u32,
    pub differ: u32,
    pub first: u32,
}

pub fn begin() -> Tally {
    Tally::default()
}

// One case more; `right` says that nothing in it differs from what is expected.
pub fn judge(mut t: Tally, right: bool) -> Tally {
    t.cases = t.cases.wrapping_add(1);
    if right {
        return t;
    }
    if t.differ == 0 {
        t.first = t.cases;
    }
    t.differ = t.differ.wrapping_add(1);
    t
}

pub fn print(rt: &impl Print, group: &[u8], t: Tally) -> io::Result<()> {
    rt.write_all(group)?;
    println!(rt; " {} cases, {} differ", t.cases, t.differ)
}

// Prints a group, with its first case that differs, and adds it to the total.
pub fn close(rt: &impl Print, mut total: Tally, group: &[u8], t: Tally) -> io::Result<Tally> {
    print(rt, group, t)?;
    if t.differ != 0 {
        println!(rt; "the first is case {}", t.first)?;
    }
    total.cases = total.cases.wrapping_add(t.cases);
    total.differ = total.differ.wrapping_add(t.differ);
    Ok(total)
}
