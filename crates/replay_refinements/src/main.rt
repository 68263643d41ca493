// Replays the reference's answers on refinement, and on guidance at the midpoint of a cut side.
// data/README.md says how the lists were made. A program: it prints a line for each list, how many answers and how many differ, which the
// gate compares with the file stdout.
#![tactic(auto)]

mod floors;

ghost use Rattle.std.specs.Prelude.{◌≡◌, ◌<◌, ◌≤◌, IfOk};
ghost use Rattle.complex.specs.Guidance.{mid_angle};
ghost use Rattle.replay.specs.Rows.{double_at, same_as};

use replay::rows;
use replay::rows::Reading;
use std::io;
use std::io::Read;
use std::rt::Files;

// The lists.
#[derive(Clone, Copy)]
enum List {
    Refinements,
    Guidance,
}

// The words of a row of each list.
fn width(list: List) -> usize
    ensures { result ≤ 256 }
{
    match list {
        List::Refinements => 256,
        List::Guidance => 3,
    }
}

// The angles of two ends; the angle at the midpoint.
fn guidance_row(row: &[u8]) -> bool
    ensures { result ≡ same_as (mid_angle (double_at row.now 0) (double_at row.now 1)) (double_at row.now 2) }
{
    let low = rows::double(row, 0);
    let high = rows::double(row, 1);
    rows::same(
        complex::guidance::mid_angle(low, high),
        rows::double(row, 2),
    )
}

// Whether a row holds for the program too.
fn holds(row: &[u8], list: List) -> bool {
    match list {
        List::Refinements => floors::refinement(row),
        List::Guidance => guidance_row(row),
    }
}

// The next row of a list.
fn some<F: Read>(file: &mut F, at: Reading, list: List) -> io::Result<Reading>
    requires { 0 < at.left }
    ensures { IfOk result (λ next. next.left < at.left) }
{
    let mut row = [0u8; 4352];
    let n = rows::next(file, width(list), &mut row)?;
    if n == 0 {
        return Ok(rows::ended(at));
    }
    Ok(rows::judged(at, holds(&row[..n], list)))
}

// The whole list.
fn all_of<R: Files + Print + Eprint>(rt: &R, name: &str, list: List) -> io::Result<()> {
    let mut file = replay::open(rt, name)?;
    let mut at = rows::begin();
    // Kept: the end comes from the file, so this counts no index.
    while at.left > 0 {
        at = some(&mut file, at, list)?;
    }
    replay::report(&mut io::writer(rt), name.as_bytes(), at)
}

fn main(rt: HostRuntime) -> io::Result<()> {
    all_of(&rt, "refinements", List::Refinements)?;
    all_of(&rt, "guidance", List::Guidance)
}
