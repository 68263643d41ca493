// Whole numbers in columns of six bytes, as the texts of document 01 have them: decimal digits right-justified, a minus next to the
// first digit, no leading zero and no minus before 0. specs/Columns.antt says which bytes a number has and how a column is read;
// proofs/Strict.antt proves that a column reads as a number exactly if it has that number's bytes.
#![tactic(auto)]

ghost use Rattle.std.specs.Prelude.{◌≡◌, cond, [], ◌∷◌, ◌+◌, ◌-◌, ◌*◌, ◌<◌, ◌≤◌, length};
ghost use Rattle.std.proofs.lemmas.List.Edits.{sets};
ghost use Rattle.text_columns.specs.Columns.{is_lead, is_digit, after_blank, after_minus, step, scan, is_number, is_whole, size_of, double_of, blank_or_digit, column_of, columns_of, line_of};

// What the bytes of a column have shown so far.
// Kept: six states of a reader, of which three are numbers; no Option says them.
#[derive(Clone, Copy)]
pub enum Scan {
    // Blanks, or nothing yet.
    Blank,
    // Blanks and a minus.
    Minus,
    // Blanks and the digit 0.
    Zero,
    // A number above 0.
    Whole(u64),
    // A number below 0, by its size.
    Negative(u64),
    // No number, whatever follows.
    Bad,
}

// ---- reading

// The byte of the digit 0. The digits stand between '/' and ':'.
const DIGIT_0: u64 = 48;

// A digit that a number above 9 may start with.
#[tactic(auto, unfolding(crate::specs::Columns::is_lead))]
fn is_lead(b: u8) -> bool
    ensures { result ≡ is_lead b }
{
    b'0' < b && b < b':'
}

#[tactic(auto, unfolding(crate::specs::Columns::is_digit))]
fn is_digit(b: u8) -> bool
    ensures { result ≡ is_digit b }
{
    b'/' < b && b < b':'
}

#[tactic(auto, unfolding(crate::specs::Columns::after_blank, crate::specs::Columns::is_lead))]
fn after_blank(b: u8) -> Scan
    ensures { result ≡ after_blank b }
{
    if b == b' ' {
        return Scan::Blank;
    }
    if b == b'-' {
        return Scan::Minus;
    }
    if b == b'0' {
        return Scan::Zero;
    }
    if is_lead(b) {
        return Scan::Whole(b as u64 - DIGIT_0);
    }
    Scan::Bad
}

#[tactic(auto, unfolding(crate::specs::Columns::after_minus, crate::specs::Columns::is_lead))]
fn after_minus(b: u8) -> Scan
    ensures { result ≡ after_minus b }
{
    if is_lead(b) {
        return Scan::Negative(b as u64 - DIGIT_0);
    }
    Scan::Bad
}

// n with the digit b behind it; none if b is no digit.
#[tactic(auto, unfolding(crate::specs::Columns::is_digit))]
fn with_digit(n: u64, b: u8) -> Option<u64>
    requires { n < 1000000 }
    ensures { result ≡ cond (is_digit b) (Some (10 * n + (b - 48))) None }
{
    if is_digit(b) {
        return Some(10 * n + (b as u64 - DIGIT_0));
    }
    None
}

#[tactic(auto, unfolding(crate::specs::Columns::step))]
fn step_on(s: Scan, b: u8) -> Scan
    requires { size_of s < 1000000 }
    ensures { result ≡ step s b }
{
    match s {
        Scan::Blank => after_blank(b),
        Scan::Minus => after_minus(b),
        Scan::Whole(n) => with_digit(n, b).map_or(Scan::Bad, Scan::Whole),
        Scan::Negative(n) => with_digit(n, b).map_or(Scan::Bad, Scan::Negative),
        Scan::Zero | Scan::Bad => Scan::Bad,
    }
}

// What a column shows. It has at most six bytes.
pub fn scan_column(column: &[u8]) -> Scan
    requires { length column.now ≤ 6 }
    ensures { result ≡ scan column.now (length column.now) }
{
    let mut s = Scan::Blank;
    for &b in column {
        s = step_on(s, b);
    }
    s
}

// Whether a column is a number, and whether it is one that is not below 0.
pub fn is_number(s: Scan) -> bool
    ensures { result ≡ is_number s }
{
    matches!(s, Scan::Zero | Scan::Whole(_) | Scan::Negative(_))
}

pub fn is_whole(s: Scan) -> bool
    ensures { result ≡ is_whole s }
{
    matches!(s, Scan::Zero | Scan::Whole(_))
}

// The number's size, and 0 where there is none.
pub fn size(s: Scan) -> u64
    ensures { result ≡ size_of s }
{
    match s {
        Scan::Whole(n) | Scan::Negative(n) => n,
        Scan::Blank | Scan::Minus | Scan::Zero | Scan::Bad => 0,
    }
}

// The number as a double, and 0 where there is none.
pub fn double(s: Scan) -> f64
    ensures { result ≡ double_of s }
{
    match s {
        Scan::Whole(n) => float::from_whole(n),
        Scan::Negative(n) => -float::from_whole(n),
        Scan::Blank | Scan::Minus | Scan::Zero | Scan::Bad => 0.0,
    }
}

// ---- writing

// The last digit of n, or a blank where no digit is left.
#[tactic(auto, unfolding(crate::specs::Columns::blank_or_digit))]
fn blank_or_digit(n: u64) -> u8
    ensures { result ≡ blank_or_digit n }
{
    if n == 0 {
        return b' ';
    }
    (DIGIT_0 + n % 10) as u8
}

// The column of n, from `at` on.
pub fn put_column(out: &mut [u8], at: usize, n: u64)
    requires { at + 6 ≤ length out.old }
    ensures { out.new ≡ sets out.old at (column_of n) }
{
    let a = n / 10;
    let b = a / 10;
    let c = b / 10;
    let d = c / 10;
    let bytes = [
        blank_or_digit(d / 10),
        blank_or_digit(d),
        blank_or_digit(c),
        blank_or_digit(b),
        blank_or_digit(a),
        (DIGIT_0 + n % 10) as u8,
    ];
    slices::copy(&bytes, out, at);
}

// The columns of a row of numbers, from `at` on.
fn put_columns(out: &mut [u8], at: usize, row: &[u64])
    requires { at + 6 * length row.now ≤ length out.old }
    ensures { out.new ≡ sets out.old at (columns_of row.now) }
{
    for (j, &n) in row.iter().enumerate() {
        put_column(out, at + 6 * j, n);
    }
}

// A line: the columns of a row of numbers, and a line feed.
pub fn put_line(out: &mut [u8], at: usize, row: &[u64])
    requires { at + 6 * length row.now + 1 ≤ length out.old }
    ensures { out.new ≡ sets out.old at (line_of row.now) }
{
    put_columns(out, at, row);
    let end = at + 6 * row.len();
    out[end] = 10;
}
