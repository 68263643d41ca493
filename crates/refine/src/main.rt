// The refinement program of document 01: reads refine.in in the folder that it runs in, and prints the refined floor, or `refused`.
// What is printed is `text_answer::answer` of the bytes read.
#![tactic(auto)]

ghost use Rattle.std.specs.Prelude.{IfSome, OnOk, take};
ghost use Rattle.std.specs.Io.KnownBytes.{Appends};
ghost use Rattle.text_answer.specs.Printed.{printed};

use std::io;
use std::io::{Read, Write};

// Prints the answer to a text.
fn print<W: Write>(to: &mut W, text: &[u8]) -> io::Result<()>
    ensures { OnOk result (Appends (W.contents to.old) (W.contents to.new) (printed text.now)) }
{
    let mut out = [0u8; 29465];
    let n = text_answer::answer(text, &mut out);
    to.write_all(&out[..n])
}

// Reads a text and prints the answer to it. Room is for the longest text, of 256 points and 256 triangles, and one byte more, so that a longer input is of another
// form.
fn answer<R: Read, W: Write>(from: &mut R, to: &mut W) -> io::Result<()>
    ensures { OnOk result (IfSome (R.remaining from.old) (λ text. Appends (W.contents to.old) (W.contents to.new) (printed (take 9748 text)))) }
{
    let mut text = [0u8; 9748];
    let n = replay::read_full(from, &mut text)?;
    print(to, &text[..n])
}

fn main(rt: HostRuntime) -> io::Result<()> {
    let mut file = replay::open(&rt, "refine.in")?;
    answer(&mut file, &mut io::writer(&rt))
}
