// Books, sheets and rows of numbers, written as text. What is no digit separates, so words and signs may stand between.
ghost use Rattle.std.specs.Prelude.{◌<◌, ◌≤◌, length, IfSome};

// The numbers of a line; those past the last cell are only counted. `open` says that the last may have more digits.
#[derive(Clone, Copy, Default)]
pub struct Row {
    cells: [usize; 16],
    pub count: usize,
    open: bool,
}

// The value of a digit up to F.
fn digit(c: u8) -> Option<u8>
    ensures { IfSome result (λ d. d < 16) }
{
    match c {
        b'0'..=b'9' => Some(c - b'0'),
        b'A'..=b'F' => Some(c - b'A' + 10),
        _ => None,
    }
}

impl Row {
    // Reads one character more.
    pub fn read(&mut self, c: u8) {
        let i = self.count;
        match digit(c) {
            Some(d) if d < 10 => {
                self.open = true;
                if i < 16 {
                    self.cells[i] = self.cells[i] % 100000 * 10 + usize::from(d);
                }
            }
            _ => {
                if self.open {
                    self.open = false;
                    self.count = i.wrapping_add(1);
                }
            }
        }
    }

    // The number in a cell, 0 past the last.
    pub fn cell(&self, i: usize) -> usize {
        if i < 16 { self.cells[i] } else { 0 }
    }

    pub fn small(&self, i: usize) -> u8 {
        (self.cell(i) % 256) as u8
    }
}

// The numbers of a line.
pub fn row_of(line: &[u8]) -> Row {
    let mut r = Row::default();
    for c in line {
        r.read(*c);
    }
    r.read(b' ');
    r
}

// Writes the bytes that the text gives in hexadecimal, two digits each, over what was there, and answers how many.
pub fn write(b: &mut [u8], text: &[u8]) -> usize {
    let mut digits = 0;
    for c in text {
        let at = digits / 2;
        if let Some(d) = digit(*c)
            && at < b.len()
        {
            b[at] = b[at] % 16 * 16 + d;
            digits += 1;
        }
    }
    digits / 2
}

// Where a sign stands next, from a place on; the end of the text if nowhere.
pub fn until(text: &[u8], from: usize, sign: u8) -> usize
    requires { from ≤ length text.now }
    ensures { (from ≤ result) × (result ≤ length text.now) }
{
    for at in from..text.len() {
        if text[at] == sign {
            return at;
        }
    }
    text.len()
}

// Where the line ends that begins at a place.
pub fn line_end(text: &[u8], from: usize) -> usize
    requires { from ≤ length text.now }
    ensures { (from ≤ result) × (result ≤ length text.now) }
{
    until(text, from, b'\n')
}

// The byte at a place, 0 past the end.
pub fn byte(b: &[u8], at: usize) -> u8 {
    if at < b.len() { b[at] } else { 0 }
}

// Past the end nothing is set.
pub fn set(b: &mut [u8], at: usize, x: u8) {
    if at < b.len() {
        b[at] = x;
    }
}
