// Replays texts of refine.in, good and damaged, with what they must print. data/README.md says how the list was made.
// A program: it prints how many there are and how many differ, which the gate compares with the file stdout.
#![tactic(auto)]

ghost use Rattle.std.specs.Prelude.{◌<◌, ◌≤◌, IfOk, length};

use replay::rows;
use replay::rows::Reading;
use std::io;
use std::io::Read;
use std::rt::Files;

// What the bytes behind the answer hold before and after.
const MARK: u8 = 170;

// A length out of a column, at most `most`.
fn length_in(column: &[u8], most: usize) -> usize
    requires { length column.now ≤ 6 }
    ensures { result ≤ most }
{
    let n = text_columns::size(text_columns::scan_column(column)) as usize;
    n.min(most)
}

// Whether a slice holds the mark from n on.
fn marked(out: &[u8], n: usize) -> bool {
    out.iter().skip(n).all(|&b| b == MARK)
}

// Whether the text prints what it must, and nothing behind it.
fn prints(text: &[u8], must: &[u8]) -> bool {
    let mut out = [MARK; 29500];
    let n = text_answer::answer(text, &mut out);
    &out[..n] == must && marked(&out, n)
}

// An entry of so many bytes each, over slices for the text and what it must print.
fn entry_over<F: Read>(
    file: &mut F,
    text: usize,
    must: usize,
    a: &mut [u8],
    b: &mut [u8],
) -> io::Result<bool>
    requires { (text ≤ length a.old) × (must ≤ length b.old) }
{
    let n = replay::read_full(file, &mut a[0..text])?;
    let m = replay::read_full(file, &mut b[0..must])?;
    if n != text || m != must {
        return Ok(false);
    }
    let given: &[u8] = a;
    let printed: &[u8] = b;
    Ok(prints(&given[0..text], &printed[0..must]))
}

fn entry<F: Read>(file: &mut F, text: usize, must: usize) -> io::Result<bool>
    requires { (text ≤ 20000) × (must ≤ 29500) }
{
    let mut a = [0u8; 20000];
    let mut b = [0u8; 29500];
    entry_over(file, text, must, &mut a, &mut b)
}

// The next entry: a line with its two lengths, the text, what it must print. A list that ends within such a line has one that differs.
fn some<F: Read>(file: &mut F, at: Reading) -> io::Result<Reading>
    requires { 0 < at.left }
    ensures { IfOk result (λ next. next.left < at.left) }
{
    let mut head = [0u8; 13];
    let n = replay::read_full(file, &mut head)?;
    if n == 0 {
        return Ok(rows::ended(at));
    }
    if n != 13 {
        return Ok(rows::judged(at, false));
    }
    let text = length_in(&head[0..6], 20000);
    let must = length_in(&head[6..12], 29500);
    Ok(rows::judged(at, entry(file, text, must)?))
}

// The whole list.
fn all_of<R: Files + Print + Eprint>(rt: &R, name: &str) -> io::Result<()> {
    let mut file = replay::open(rt, name)?;
    let mut at = rows::begin();
    // Kept: the end comes from the file, so this counts no index.
    while at.left > 0 {
        at = some(&mut file, at)?;
    }
    replay::report(&mut io::writer(rt), name.as_bytes(), at)
}

fn main(rt: HostRuntime) -> io::Result<()> {
    all_of(&rt, "texts")
}
