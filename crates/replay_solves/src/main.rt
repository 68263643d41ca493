// Replays whole solves of the reference on floors of at most 12 points and 12 triangles. data/README.md says how the lists were made.
// A program: it prints a line for each list, how many answers and how many differ, then the same of those rows that have an angle -0 and of
// those that are given a NaN, which the gate compares with the file stdout.
#![tactic(auto)]

mod row;

ghost use Rattle.std.specs.Prelude.{◌≡◌, ◌<◌, ◌≤◌, IfOk, length};
ghost use Rattle.replay_solves.specs.Row.{wanted_in};

use replay::rows;
use replay::rows::Reading;
use std::io;
use std::io::Read;
use std::rt::Files;

// Whether a row is one of those to judge: 0 each, 1 with an angle -0 in the answer, 2 with a NaN given.
fn wanted(row: &[u8], kind: u64) -> bool
    ensures { result ≡ wanted_in kind row.now }
{
    if kind == 0 {
        return true;
    }
    if kind == 1 {
        return row::has_minus_zero(row);
    }
    row::has_nan(row)
}

// The row of so many words whose first is at the front of a slice. A word 0 where a row would begin stands between two rows.
fn row_of<F: Read>(
    file: &mut F,
    at: Reading,
    kind: u64,
    words: usize,
    row: &mut [u8],
) -> io::Result<Reading>
    requires { (0 < at.left) × ((words ≤ 256) × (length row.old ≡ 4352)) }
    ensures { IfOk result (λ next. next.left < at.left) }
{
    if words == 0 {
        return Ok(rows::passed(at));
    }
    let end = 17 * words;
    let n = replay::read_full(file, &mut row[17..end])?;
    let read = 17 + n;
    if !wanted(&row[0..read], kind) {
        return Ok(rows::passed(at));
    }
    Ok(rows::judged(at, row::holds(&row[0..read])))
}

// The next row of a list, which says how long it is.
fn some<F: Read>(file: &mut F, at: Reading, kind: u64) -> io::Result<Reading>
    requires { 0 < at.left }
    ensures { IfOk result (λ next. next.left < at.left) }
{
    let mut row = [0u8; 4352];
    let n = rows::next(file, 1, &mut row)?;
    if n == 0 {
        return Ok(rows::ended(at));
    }
    let words = rows::count(&row, 0, 256);
    row_of(file, at, kind, words, &mut row)
}

// Those rows of a list that are of a kind.
fn all_of<R: Files + Print + Eprint>(rt: &R, list: &str, name: &[u8], kind: u64) -> io::Result<()> {
    let mut file = replay::open(rt, list)?;
    let mut at = rows::begin();
    while at.left > 0 {
        at = some(&mut file, at, kind)?;
    }
    replay::report(&mut io::writer(rt), name, at)
}

fn main(rt: HostRuntime) -> io::Result<()> {
    all_of(&rt, "passes", b"passes", 0)?;
    all_of(&rt, "passes", b"passes with an angle -0", 1)?;
    all_of(&rt, "passes", b"passes with a NaN given", 2)?;
    all_of(&rt, "solves", b"solves", 0)?;
    all_of(&rt, "solves", b"solves with an angle -0", 1)?;
    all_of(&rt, "solves", b"solves with a NaN given", 2)
}
