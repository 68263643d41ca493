// Replays the reference's conjugate gradient and normalize_in_mass on recorded systems of at most 16 rows and 40 edges.
// data/README.md says how the list was made. A program: it prints how many answers there are and how many differ, which the gate compares
// with the file stdout.
#![tactic(auto)]

ghost use Rattle.std.specs.Prelude.{◌≡◌, ◌+◌, ◌<◌, ◌≤◌, IfOk, length};
ghost use Rattle.replay_linear.specs.Verdict.{told_as, of_reason, of_checked, end_in};

use linear_conjugate_gradient::Reason;
use replay::rows;
use replay::rows::Reading;
use std::io;
use std::io::Read;
use std::rt::Files;

// The words of a recorded system, and where its parts begin.
const WIDTH: usize = 240;

// A reason of document 01 and the iterations or the place; 0 where there is none.
#[derive(Clone, Copy)]
struct Verdict {
    reason: u64,
    value: u64,
}

fn told(reason: u64, value: u64) -> Verdict
    ensures { result ≡ told_as reason value }
{
    Verdict { reason, value }
}

fn told_reason(r: Reason) -> Verdict
    ensures { result ≡ of_reason r }
{
    match r {
        Reason::RightHandNorm => told(3, 0),
        Reason::Diagonal(i) => told(4, i as u64),
        Reason::FirstResidual => told(5, 0),
        Reason::Denominator => told(6, 0),
        Reason::LostDefiniteness => told(7, 0),
        Reason::CountSpent => told(8, 0),
        Reason::MassOfIterate => told(9, 0),
    }
}

// An answer of linear_layers: None where it refused the slices.
fn told_checked(c: Option<Result<usize, Reason>>) -> Verdict
    ensures { result ≡ of_checked c }
{
    match c {
        None => told(255, 0),
        Some(Ok(count)) => told(0, count as u64),
        Some(Err(r)) => told_reason(r),
    }
}

fn put_end(ends: &mut [u32], at: usize, value: u64) {
    if at < ends.len() {
        if value < 0x1_0000_0000 {
            ends[at] = value as u32;
        }
    }
}

// n doubles from word k on, into a slice from a place on.
fn load(work: &mut [f64], to: usize, row: &[u8], k: usize, n: usize)
    requires { (to ≤ length work.old) × (k + length work.old < 4096) }
{
    rows::doubles(row, k, n, &mut work[to..]);
}

// One end of an edge: the upper or the lower half of its word.
fn end_of(word: u64, upper: bool) -> u64
    ensures { result ≡ end_in word upper }
{
    if upper {
        return word / 0x1_0000_0000;
    }
    word % 0x1_0000_0000
}

// One end of each of m edges, from word k on.
fn load_ends(ends: &mut [u32], row: &[u8], k: usize, m: usize, upper: bool)
    requires { (k < 4096) × (m < 4096) }
{
    for e in 0..m {
        put_end(ends, e, end_of(replay::word(row, k + e), upper));
    }
}

// Whether n doubles of a slice, from a place on, are the first n of another.
fn same_part(work: &[f64], from: usize, want: &[f64], n: usize) -> bool
    requires { (from + n ≤ length work.now) × (n ≤ length want.now) }
{
    let end = from + n;
    rows::same_doubles(&work[from..end], &want[0..n])
}

// Whether n doubles of a slice, from a place on, are those from word k on.
fn same(work: &[f64], from: usize, row: &[u8], k: usize, n: usize) -> bool
    requires { (from + n ≤ length work.now) × ((n ≤ 16) × (k < 4096)) }
{
    let mut want = [0.0; 16];
    rows::doubles(row, k, n, &mut want);
    same_part(work, from, &want, n)
}

// The diagonal, the entries off it, and a vector at `base`.
fn load_all(work: &mut [f64], row: &[u8], n: usize, m: usize, base: usize)
    requires { (length work.old ≡ 400) × ((n ≤ 16) × ((m ≤ 40) × (base ≤ 288))) }
{
    load(work, 0, row, 8, n);
    load(work, n, row, 64, m);
    load(work, n + m, row, 104, m);
    load(work, base, row, 144, n);
    load(work, base + n, row, 160, n);
}

fn judged(work: &[f64], row: &[u8], n: usize, x: usize, c: Option<Result<usize, Reason>>) -> bool
    requires { (length work.now ≡ 400) × ((n ≤ 16) × (x ≤ 256)) }
{
    let t = told_checked(c);
    if t.reason != replay::word(row, 5) {
        return false;
    }
    if t.value != replay::word(row, 6) {
        return false;
    }
    if t.reason != 0 {
        return true;
    }
    if same(work, x, row, 176, n) {
        return same(work, x + n, row, 192, n);
    }
    false
}

// The first m ends go down. No iterations are counted.
fn normalize(
    work: &mut [f64],
    n: usize,
    from: &[u32],
    to: &[u32],
    m: usize,
) -> Option<Result<usize, Reason>> {
    if from.len() < m {
        return None;
    }
    if to.len() < m {
        return None;
    }
    let answer = linear_layers::normalize(work, n, &from[..m], &to[..m])?;
    Some(answer.map(|_| 0))
}

fn solve(
    work: &mut [f64],
    n: usize,
    from: &[u32],
    to: &[u32],
    numbers: &mut [u32],
    m: usize,
    tolerance: f64,
    most: usize,
) -> Option<Result<usize, Reason>> {
    if from.len() < m {
        return None;
    }
    if to.len() < m {
        return None;
    }
    linear_layers::solve(work, n, &from[..m], &to[..m], numbers, tolerance, most)
}

fn normalized(work: &mut [f64], from: &[u32], to: &[u32], row: &[u8], n: usize, m: usize) -> bool
    requires { (length work.old ≡ 400) × ((n ≤ 16) × (m ≤ 40)) }
{
    let x = n + 6 * m;
    load_all(work, row, n, m, x);
    let c = normalize(work, n, from, to, m);
    judged(work, row, n, x, c)
}

fn solved(work: &mut [f64], from: &[u32], to: &[u32], row: &[u8], n: usize, m: usize) -> bool
    requires { (length work.old ≡ 400) × ((n ≤ 16) × (m ≤ 40)) }
{
    let x = n + 6 * m;
    load_all(work, row, n, m, x + 2 * n);
    let most = rows::count(row, 4, 6000);
    // What linear_layers asks for at 16 rows and 40 edges: 2 n + 1 + 6 m.
    let mut numbers = [0u32; 273];
    let c = solve(
        work,
        n,
        from,
        to,
        &mut numbers,
        m,
        rows::double(row, 3),
        most,
    );
    judged(work, row, n, x, c)
}

fn replayed(work: &mut [f64], from: &mut [u32], to: &mut [u32], row: &[u8]) -> bool
    requires { length work.old ≡ 400 }
{
    let n = rows::count(row, 0, 16);
    let m = rows::count(row, 1, 40);
    load_ends(from, row, 24, m, true);
    load_ends(to, row, 24, m, false);
    if replay::word(row, 2) == 1 {
        return normalized(work, from, to, row, n, m);
    }
    solved(work, from, to, row, n, m)
}

// Whether the system of a row has the recorded answer and iterate.
fn holds(row: &[u8]) -> bool {
    let mut work = [0.0f64; 400];
    let mut from = [0u32; 40];
    let mut to = [0u32; 40];
    replayed(&mut work, &mut from, &mut to, row)
}

// The next system.
fn some<F: Read>(file: &mut F, at: Reading) -> io::Result<Reading>
    requires { 0 < at.left }
    ensures { IfOk result (λ next. next.left < at.left) }
{
    let mut row = [0u8; 4352];
    let n = rows::next(file, WIDTH, &mut row)?;
    if n == 0 {
        return Ok(rows::ended(at));
    }
    Ok(rows::judged(at, holds(&row[..n])))
}

// The whole list.
fn all_of<R: Files + Print + Eprint>(rt: &R, name: &str) -> io::Result<()> {
    let mut file = replay::open(rt, name)?;
    let mut at = rows::begin();
    while at.left > 0 {
        at = some(&mut file, at)?;
    }
    replay::report(&mut io::writer(rt), name.as_bytes(), at)
}

fn main(rt: HostRuntime) -> io::Result<()> {
    all_of(&rt, "systems")
}
