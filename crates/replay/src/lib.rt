// Recorded answers, for programs that replay them: a text of words, each 16 lowercase hex digits
// and one byte that parts it from the next (a blank or a line feed).
//
// A program opens a list by `open`, begins it by `rows::begin`, reads it row by row, takes the words out by `word`, compares by
// `same_double`, judges each row by `rows::judged`, and prints its counts by `report`. Module `rows` has what
// rows of doubles and corners need.
#![tactic(auto)]

pub mod rows;

ghost use Rattle.std.specs.Prelude.{◌≡◌, ◌<◌, IfOk, OnErr, OnOk, length, slice_index, take};
ghost use Rattle.std.specs.Io.KnownBytes.{Appends, Consumes, IsAtEnd};
ghost use Rattle.std.specs.Fmt.{decimal};
ghost use Rattle.replay.specs.Rows.{IsPrefixLen, LosesFront, line_of};
ghost use Rattle.replay.specs.Words.{digit_of, word_at, same_double, nan_pattern};

use rows::Reading;
use std::fs::File;
use std::io;
use std::io::{Read, Write};
use std::rt::Files;

// b'a' less the 10 that it stands for.
const HEX_A: u8 = 87;

#[tactic(auto, unfolding(crate::specs::Words::digit_of))]
fn digit(b: u8) -> u64
    ensures { (result ≡ digit_of b) × (result < 16) }
{
    if b < b'0' {
        return 0;
    }
    if b < b':' {
        return (b - b'0') as u64;
    }
    if b < b'a' {
        return 0;
    }
    if b < b'g' {
        return (b - HEX_A) as u64;
    }
    0
}

#[tactic(auto, unfolding(crate::specs::Words::digit_of))]
fn digit_at(text: &[u8], j: usize) -> u64
    ensures { (result ≡ digit_of (slice_index text.now j)) × (result < 16) }
{
    if j < text.len() {
        return digit(text[j]);
    }
    0
}

// Word k of the text: what lies past its end, or is no hex digit, counts as the digit 0.
pub fn word(text: &[u8], k: usize) -> u64
    ensures { result ≡ word_at text.now k }
{
    if k > text.len() / 17 {
        return 0;
    }
    let at = 17 * k;
    let mut value: u64 = 0;
    for i in 0..16 {
        value = value * 16 + digit_at(text, at + i);
    }
    value
}

fn is_nan_pattern(b: u64) -> bool
    ensures { result ≡ nan_pattern b }
{
    b % 0x8000_0000_0000_0000 > 0x7ff0_0000_0000_0000
}

// Whether two patterns stand for the same double. All NaNs count as equal.
#[tactic(auto, unfolding(crate::specs::Words::same_double))]
pub fn same_double(a: u64, b: u64) -> bool
    ensures { result ≡ same_double a b }
{
    if is_nan_pattern(a) {
        return is_nan_pattern(b);
    }
    a == b
}

// Opens a file of the folder that the program runs in; where there is none, says so, and answers the error.
pub fn open<R: Files + Eprint>(rt: &R, name: &str) -> io::Result<R::File> {
    match File::open(rt, name) {
        Ok(file) => Ok(file),
        Err(error) => {
            eprintln!(rt; "{name}: {error}")?;
            Err(error)
        }
    }
}

// Reads until the slice is full or the input has ended. How many bytes now stand at its front: fewer than it holds only where the input has ended.
// After an error the slice holds what had been read before it.
pub fn read_full<R: Read>(reader: &mut R, buf: &mut [u8]) -> io::Result<usize>
    ensures count { IfOk result (λ n. IsPrefixLen n buf.new) }
    ensures bytes { IfOk result (λ n. Consumes (R.remaining reader.old) (R.remaining reader.new) (take n buf.new)) }
    ensures ended { IfOk result (λ n. n < length buf.old → IsAtEnd (R.remaining reader.new)) }
    ensures err { OnErr result (LosesFront (R.remaining reader.old) (R.remaining reader.new) buf.new) }
{
    let mut done = 0;
    // Kept: a read gives as many bytes as it likes, so this counts no index.
    while done < buf.len() {
        let n = reader.read(&mut buf[done..])?;
        if n == 0 {
            return Ok(done);
        }
        done += n;
    }
    Ok(done)
}

fn put_decimal<W: Write>(out: &mut W, n: u64) -> io::Result<()>
    ensures { OnOk result (Appends (W.contents out.old) (W.contents out.new) (decimal n)) }
{
    write!(out, "{n}")
}

fn print<W: Write>(out: &mut W, text: &[u8]) -> io::Result<()>
    ensures { OnOk result (Appends (W.contents out.old) (W.contents out.new) text.now) }
{
    out.write_all(text)
}

// Prints `NAME N recorded, M differ` as one line.
pub fn report<W: Write>(out: &mut W, name: &[u8], at: Reading) -> io::Result<()>
    ensures { OnOk result (Appends (W.contents out.old) (W.contents out.new) (line_of name.now at)) }
{
    print(out, name)?;
    print(out, b" ")?;
    put_decimal(out, at.recorded)?;
    print(out, b" recorded, ")?;
    put_decimal(out, at.differ)?;
    print(out, b" differ\n")
}
