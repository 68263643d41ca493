// Replays recorded answers on the leaves: sin, cos and atan2 against java.lang.StrictMath, the root against the processor's.
// data/README.md says how the lists were made. A program: it prints a line for each function, how many answers and how many differ,
// which the gate compares with the file stdout.
#![tactic(auto)]

ghost use Rattle.std.specs.Prelude.{◌≡◌, ◌<◌, ◌≤◌, IfOk};
ghost use Rattle.replay_leaves.specs.Leaves.{width_of, holds_of};

use replay::rows;
use replay::rows::Reading;
use std::io;
use std::io::Read;
use std::rt::Files;

#[derive(Clone, Copy)]
enum Leaf {
    Sin,
    Cos,
    Atan2,
    Sqrt,
}

// The words of a row: `x sin cos` for the sine and the cosine, `y x atan2` for the arctangent, `x sqrt` for the root.
fn width(leaf: Leaf) -> usize
    ensures { (result ≡ width_of leaf) × (result ≤ 256) }
{
    match leaf {
        Leaf::Sin | Leaf::Cos | Leaf::Atan2 => 3,
        Leaf::Sqrt => 2,
    }
}

// Whether a row holds for the program too.
fn holds(row: &[u8], leaf: Leaf) -> bool
    ensures { result ≡ holds_of leaf row.now }
{
    let x = rows::double(row, 0);
    let b = rows::double(row, 1);
    let c = rows::double(row, 2);
    match leaf {
        Leaf::Sin => rows::same(sine::sin(x), b),
        Leaf::Cos => rows::same(sine::cos(x), c),
        Leaf::Atan2 => rows::same(arctangent::atan2(x, b), c),
        Leaf::Sqrt => rows::same(root::sqrt(x), b),
    }
}

// The next row of a list.
fn some<F: Read>(file: &mut F, at: Reading, leaf: Leaf) -> io::Result<Reading>
    requires { 0 < at.left }
    ensures { IfOk result (λ next. next.left < at.left) }
{
    let mut row = [0u8; 4352];
    let n = rows::next(file, width(leaf), &mut row)?;
    if n == 0 {
        return Ok(rows::ended(at));
    }
    Ok(rows::judged(at, holds(&row[..n], leaf)))
}

// The whole list.
fn all_of<R: Files + Print + Eprint>(
    rt: &R,
    list: &str,
    name: &[u8],
    leaf: Leaf,
) -> io::Result<()> {
    let mut file = replay::open(rt, list)?;
    let mut at = rows::begin();
    while at.left > 0 {
        at = some(&mut file, at, leaf)?;
    }
    replay::report(&mut io::writer(rt), name, at)
}

fn main(rt: HostRuntime) -> io::Result<()> {
    all_of(&rt, "sincos", b"sin", Leaf::Sin)?;
    all_of(&rt, "sincos", b"cos", Leaf::Cos)?;
    all_of(&rt, "atan2", b"atan2", Leaf::Atan2)?;
    all_of(&rt, "sqrt", b"sqrt", Leaf::Sqrt)
}
