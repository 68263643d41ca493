// A row that holds a whole solve: what is given, how long the lent slices are, and the answer. data/README.md has its words.
ghost use Rattle.std.specs.Prelude.{◌≡◌, ◌≤◌, length, take, replicate};
ghost use Rattle.float.specs.Double.{lit};
ghost use Rattle.solve.specs.Passes.{lent};
ghost use Rattle.refinement.specs.Floor.{over};
ghost use Rattle.replay_solves.specs.Row.{quarter_at, count_at, given_doubles, has_nan, has_minus_zero};
ghost use Rattle.replay_solves.specs.Solve.{boundary_in, options_in, asked_in, same_refusal, same_outcome, same_angles, wiped_in, same_work};
ghost use Rattle.replay_solves.specs.Solve.{solved_on, Lends, solve_on, solve_row};

use calls::Counts;
use pass::Asked;
use pass_options::{BoundaryMode, Options};
use refusals::Refusal;
use replay::rows;

// Where the parts that are as long as counted begin.
const PARTS: usize = 13;

// What the lent slices hold before the call.
const MARK: f64 = -7.5;

const MARK_U32: u32 = 0xdead_beef;

// A quarter of word k; the uppermost is 0.
fn quarter(row: &[u8], k: usize, i: u64) -> u64
    ensures { result ≡ quarter_at row.now k i }
{
    let w = replay::word(row, k);
    if i == 0 {
        return w / 0x1_0000_0000_0000;
    }
    if i == 1 {
        return (w / 0x1_0000_0000) % 0x1_0000;
    }
    if i == 2 {
        return (w / 0x1_0000) % 0x1_0000;
    }
    w % 0x1_0000
}

// The count that a quarter of word k gives, at most `most`.
fn count(row: &[u8], k: usize, i: u64, most: usize) -> usize
    ensures { (result ≡ count_at row.now k i most) × (result ≤ most) }
{
    rows::at_most(quarter(row, k, i) as usize, most)
}

fn boundary_of(row: &[u8]) -> BoundaryMode
    ensures { result ≡ boundary_in row.now }
{
    let kind = quarter(row, 3, 2);
    if kind == 0 {
        return BoundaryMode::None;
    }
    if kind == 1 {
        return BoundaryMode::Tangent;
    }
    BoundaryMode::Weak(rows::double(row, 8))
}

fn options_of(row: &[u8]) -> Options
    ensures { result ≡ options_in row.now }
{
    let boundary = boundary_of(row);
    Options {
        accurate: quarter(row, 3, 1) != 0,
        holomorphic: rows::double(row, 5),
        anisotropy: rows::double(row, 6),
        anisotropy_angle: rows::double(row, 7),
        boundary,
        adaptive: rows::double(row, 9),
    }
}

fn asked_of(row: &[u8]) -> Asked
    ensures { result ≡ asked_in row.now }
{
    Asked {
        guided: quarter(row, 3, 0) != 0,
        weight: rows::double(row, 4),
        iterations: replay::word(row, 10) as usize,
    }
}

// Number, reason and pass of a refusal, and its places; or four zeros, a zero and the counts.
fn same_refusal(row: &[u8], r: Refusal) -> bool
    ensures { result ≡ same_refusal row.now r }
{
    if r.number != quarter(row, 11, 0) {
        return false;
    }
    if r.reason != quarter(row, 11, 1) {
        return false;
    }
    if r.pass != quarter(row, 11, 2) {
        return false;
    }
    if r.place != quarter(row, 12, 0) {
        return false;
    }
    r.other == quarter(row, 12, 1)
}

fn same_outcome(row: &[u8], o: Result<Counts, Refusal>) -> bool
    ensures { result ≡ same_outcome row.now o }
{
    match o {
        Ok(c) => {
            if quarter(row, 11, 0) != 0 {
                return false;
            }
            if c.flagged as u64 != quarter(row, 12, 2) {
                return false;
            }
            c.cut as u64 == quarter(row, 12, 3)
        }
        Err(r) => same_refusal(row, r),
    }
}

// Whether the angle slices begin with the recorded angles, which stand from word k on, and hold the mark behind them.
fn same_angles(row: &[u8], k: usize, coarse: &[f64], fine: &[f64]) -> bool
    requires { k ≤ 900 }
    ensures { result ≡ same_angles row.now k coarse.now fine.now }
{
    let mut want = [MARK; 24];
    let mut want_fine = [MARK; 64];
    let n = count(row, 3, 3, 24);
    let m = count(row, 11, 3, 64);
    rows::doubles(row, k, n, &mut want);
    rows::doubles(row, k + n, m, &mut want_fine);
    if rows::same_doubles(coarse, &want) {
        return rows::same_doubles(fine, &want_fine);
    }
    false
}

// How much of a lent slice ends as zeros: nothing by rows 1 to 18, then all.
fn wiped(row: &[u8], i: u64, most: usize) -> usize
    ensures { (result ≡ wiped_in row.now i most) × (result ≤ most) }
{
    let number = quarter(row, 11, 0);
    if number == 0 {
        return count(row, 2, i, most);
    }
    if number > 18 {
        return count(row, 2, i, most);
    }
    0
}

// Zeros at the front of a slice.
fn wipe(n: usize, out: &mut [f64])
    requires { n ≤ length out.old }
    ensures { out.new ≡ over (replicate n (lit 0)) out.old }
{
    out[0..n].fill(0.0);
}

fn wipe_u32(n: usize, out: &mut [u32])
    requires { n ≤ length out.old }
    ensures { out.new ≡ over (replicate n 0) out.old }
{
    out[0..n].fill(0);
}

// Whether all of the work is as lent, or the lent part zeros.
fn same_work(row: &[u8], work: &[f64], numbers: &[u32]) -> bool
    ensures { result ≡ same_work row.now work.now numbers.now }
{
    let mut want = [MARK; 4640];
    let mut want_numbers = [MARK_U32; 2336];
    wipe(wiped(row, 2, 4640), &mut want);
    wipe_u32(wiped(row, 3, 2336), &mut want_numbers);
    if rows::same_doubles(work, &want) {
        return rows::same_numbers(numbers, &want_numbers);
    }
    false
}

// The call, on lent slices of the recorded lengths.
fn call(
    row: &[u8],
    points: &[f64],
    tris: &[u32],
    sizes: &[f64],
    angles: &[f64],
    coarse: &mut [f64],
    fine: &mut [f64],
    work: &mut [f64],
    numbers: &mut [u32],
) -> Result<Counts, Refusal>
    ensures { Lends row.now (solved_on row.now points.now tris.now sizes.now angles.now
        (lent coarse.old fine.old work.old numbers.old))
        (lent coarse.old fine.old work.old numbers.old)
        result coarse.new fine.new work.new numbers.new }
{
    let a = count(row, 2, 0, coarse.len());
    let b = count(row, 2, 1, fine.len());
    let c = count(row, 2, 2, work.len());
    let d = count(row, 2, 3, numbers.len());
    let o = options_of(row);
    let asked = asked_of(row);
    solve::solve(
        points,
        tris,
        sizes,
        angles,
        &mut coarse[0..a],
        &mut fine[0..b],
        &mut work[0..c],
        &mut numbers[0..d],
        o,
        asked,
    )
}

// The call on marked slices, and what they hold after it; the recorded angles stand from word k on.
fn ask(row: &[u8], k: usize, points: &[f64], tris: &[u32], sizes: &[f64], angles: &[f64]) -> bool
    requires { k ≤ 900 }
    ensures { result ≡ solve_on row.now k points.now tris.now sizes.now angles.now }
{
    let mut coarse = [MARK; 24];
    let mut fine = [MARK; 64];
    let mut work = [MARK; 4640];
    let mut numbers = [MARK_U32; 2336];
    let outcome = call(
        row,
        points,
        tris,
        sizes,
        angles,
        &mut coarse,
        &mut fine,
        &mut work,
        &mut numbers,
    );
    if !same_outcome(row, outcome) {
        return false;
    }
    if same_angles(row, k, &coarse, &fine) {
        return same_work(row, &work, &numbers);
    }
    false
}

// The counts of point numbers, corners, sizes and guidance angles.
fn given(row: &[u8], k: usize, points: &[f64], tris: &[u32], sizes: &[f64], angles: &[f64]) -> bool
    requires { k ≤ 900 }
    ensures { result ≡ solve_on row.now k (take (count_at row.now 1 0 (length points.now)) points.now)
        (take (count_at row.now 1 1 (length tris.now)) tris.now)
        (take (count_at row.now 1 2 (length sizes.now)) sizes.now) (take (count_at row.now 1 3 (length angles.now)) angles.now) }
{
    let p = count(row, 1, 0, points.len());
    let t = count(row, 1, 1, tris.len());
    let s = count(row, 1, 2, sizes.len());
    let g = count(row, 1, 3, angles.len());
    ask(
        row,
        k,
        &points[0..p],
        &tris[0..t],
        &sizes[0..s],
        &angles[0..g],
    )
}

// Whether a row holds for the program too.
pub fn holds(row: &[u8]) -> bool
    ensures { result ≡ solve_row row.now }
{
    let mut points = [0.0; 40];
    let mut sizes = [0.0; 16];
    let mut angles = [0.0; 16];
    let mut tris = [0u32; 40];
    let s = PARTS + count(row, 1, 0, 40);
    let g = s + count(row, 1, 2, 16);
    let t = g + count(row, 1, 3, 16);
    let end = t + count(row, 1, 1, 40);
    rows::doubles(row, PARTS, s - PARTS, &mut points);
    rows::doubles(row, s, g - s, &mut sizes);
    rows::doubles(row, g, t - g, &mut angles);
    rows::corners(row, t, end - t, &mut tris);
    given(row, end, &points, &tris, &sizes, &angles)
}

// How many numbers of points, sizes and guidance angles are given.
fn given_doubles(row: &[u8]) -> usize
    ensures { (result ≡ given_doubles row.now) × (result ≤ 72) }
{
    count(row, 1, 0, 40) + count(row, 1, 2, 16) + count(row, 1, 3, 16)
}

// Whether a weight, an option, a coordinate, a size or a guidance angle is NaN.
pub fn has_nan(row: &[u8]) -> bool
    ensures { result ≡ has_nan row.now }
{
    if rows::has_nan(row, 4, 6) {
        return true;
    }
    rows::has_nan(row, PARTS, given_doubles(row))
}

// Whether an angle of the recorded answer is -0.
pub fn has_minus_zero(row: &[u8]) -> bool
    ensures { result ≡ has_minus_zero row.now }
{
    let k = PARTS + given_doubles(row) + count(row, 1, 1, 40);
    let n = count(row, 3, 3, 24) + count(row, 11, 3, 64);
    rows::has_word(row, k, n, 0x8000_0000_0000_0000)
}
