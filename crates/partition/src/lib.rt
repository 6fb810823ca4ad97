// Classes of candidates with equal rows, numbered in the order in which they occur, and an index by which the class of a row is found.

#![tactic(auto)]

ghost use Rattle.std.specs.Prelude.{◌≡◌, ℕ, ◌+◌, ◌<◌, ◌≤◌, length, IfSome};
ghost use Rattle.partition.specs.Rows.{IsRow, KeptRows, Names, Enrolled};

// The classes of up to 16384 candidates: their rows, and for each candidate which of them it has.
#[derive(Drop)]
pub struct Classes {
    pub rows: [[u8; 16]; 16384],
    pub class: [u16; 16384],
    pub count: usize,
    ghost few: { count ≤ length rows },
}

// The index of some classes. It is of use while candidates are entered only, so it is no part of them: its room is then free for the sweeps.
#[derive(Drop)]
pub struct Index {
    // One more than the class of a row that has this key, or 0: an Option would take twice the room.
    pub places: [u16; 16384],
}

// Where the index is looked up for a row: the row as a number in base `base`. With one digit for each of a book's quantified terms it is below the
// number of candidates, so that no two rows of a book share a place.
fn key_of(row: &[u8], base: usize) -> usize
    requires { base ≤ 256 }
    ensures { result < 16384 }
{
    let mut key = 0usize;
    for x in row {
        key = (key * base + usize::from(*x)) % 16384;
    }
    key
}

impl Classes {
    // No candidate has a class yet.
    pub fn new() -> Self
        ensures { result.count ≡ 0 }
    {
        Classes {
            rows: [[0; 16]; 16384],
            class: [0; 16384],
            count: 0,
        }
    }

    // The class of a row where the index knows it. What the index says is not trusted: there has to be such a class, and the rows are compared.
    fn find(&self, index: &Index, row: &[u8], key: usize) -> Option<usize>
        requires { (length row.now ≤ 16) × (key < 16384) }
        ensures { IfSome result (λ k. (k < self.now.count) × IsRow self.now.rows k row.now) }
    {
        let known = usize::from(index.places[key]);
        if known == 0 || self.count < known || self.rows[known - 1][..row.len()] != row[..] {
            return None;
        }
        Some(known - 1)
    }

    // Writes a new class, and gives its number.
    fn add(&mut self, index: &mut Index, row: &[u8], key: usize) -> usize
        requires { (length row.now ≤ 16) × (key < 16384) × (self.old.count < 16384) }
        ensures value { (result ≡ self.old.count) × (self.new.count ≡ self.old.count + 1) }
        ensures class { self.new.class ≡ self.old.class }
        ensures row { IsRow self.new.rows self.old.count row.now }
        ensures kept_rows { KeptRows self.old.count self.old.rows self.new.rows }
        ensures names { Names index.old.places self.old.count → Names index.new.places self.new.count }
    {
        let k = self.count;
        let mut entry = [0; 16];
        entry[..row.len()].copy_from_slice(row);
        self.rows[k] = entry;
        self.count = k + 1;
        index.places[key] = self.count as u16;
        k
    }

    // Gives candidate `c`, which has this row, its class.
    pub fn enroll(&mut self, index: &mut Index, row: &[u8], base: usize, c: usize)
        requires { (length row.now ≤ 16) × (base ≤ 256) × (c < 16384) × (self.old.count < 16384) }
        ensures enrolled { Enrolled row.now self.old.rows self.new.rows self.old.class self.new.class c self.old.count self.new.count }
        ensures names { Names index.old.places self.old.count → Names index.new.places self.new.count }
    {
        let key = key_of(row, base);
        let k = match self.find(index, row, key) {
            Some(k) => k,
            None => self.add(index, row, key),
        };
        self.class[c] = k as u16;
    }
}
