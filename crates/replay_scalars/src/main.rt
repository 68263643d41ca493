// Replays the reference's answers on the scalars of a pass, on the probe and on the count of singularities.
// data/README.md says how the lists were made. A program: it prints a line for each list, how many answers and how many differ, which the
// gate compares with the file stdout.
#![tactic(auto)]

mod floors;
mod numbers;

ghost use Rattle.std.specs.Prelude.{◌<◌, ◌≤◌, IfOk};

use replay::rows;
use replay::rows::Reading;
use std::io;
use std::io::Read;
use std::rt::Files;

// What a list records.
#[derive(Clone, Copy)]
enum Kind {
    Mass,
    Dirichlet,
    Diagonal,
    Cross,
    Wrap,
    Weight,
    Geometry,
    Transport,
    Probe,
    Singular,
}

// The words of a row of each list.
fn width(kind: Kind) -> usize
    ensures { result ≤ 256 }
{
    match kind {
        Kind::Mass | Kind::Cross => 3,
        Kind::Dirichlet => 6,
        Kind::Diagonal => 10,
        Kind::Wrap | Kind::Weight => 2,
        Kind::Geometry | Kind::Transport => 15,
        Kind::Probe => 64,
        Kind::Singular => 32,
    }
}

// Whether a row holds for the program too.
fn holds(row: &[u8], kind: Kind) -> bool {
    match kind {
        Kind::Mass => numbers::mass(row),
        Kind::Dirichlet => numbers::dirichlet(row),
        Kind::Diagonal => numbers::diagonal(row),
        Kind::Cross => numbers::cross(row),
        Kind::Wrap => numbers::wrap(row),
        Kind::Weight => numbers::weight(row),
        Kind::Geometry => numbers::triangle(row),
        Kind::Transport => numbers::transport(row),
        Kind::Probe => floors::probe(row),
        Kind::Singular => floors::singular(row),
    }
}

// The next row of a list.
fn some<F: Read>(file: &mut F, at: Reading, kind: Kind) -> io::Result<Reading>
    requires { 0 < at.left }
    ensures { IfOk result (λ next. next.left < at.left) }
{
    let mut row = [0u8; 4352];
    let n = rows::next(file, width(kind), &mut row)?;
    if n == 0 {
        return Ok(rows::ended(at));
    }
    Ok(rows::judged(at, holds(&row[..n], kind)))
}

// The whole list.
fn all_of<R: Files + Print + Eprint>(rt: &R, name: &str, kind: Kind) -> io::Result<()> {
    let mut file = replay::open(rt, name)?;
    let mut at = rows::begin();
    while at.left > 0 {
        at = some(&mut file, at, kind)?;
    }
    replay::report(&mut io::writer(rt), name.as_bytes(), at)
}

fn main(rt: HostRuntime) -> io::Result<()> {
    all_of(&rt, "mass", Kind::Mass)?;
    all_of(&rt, "dirichlet", Kind::Dirichlet)?;
    all_of(&rt, "diagonal", Kind::Diagonal)?;
    all_of(&rt, "cross", Kind::Cross)?;
    all_of(&rt, "wrap", Kind::Wrap)?;
    all_of(&rt, "weight", Kind::Weight)?;
    all_of(&rt, "geometry", Kind::Geometry)?;
    all_of(&rt, "transport", Kind::Transport)?;
    all_of(&rt, "probe", Kind::Probe)?;
    all_of(&rt, "singular", Kind::Singular)
}
