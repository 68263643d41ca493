// Rows of a list, each of so many words: the next row of a file; doubles, corners and counts out of a row; slices compared; whether a row has a NaN or
// some word; and how far a program has read a list.
ghost use Rattle.std.specs.Prelude.{◌≡◌, ◌+◌, ◌*◌, ◌<◌, ◌≤◌, true, false, length, take, drop, nat_eq, IfOk, OnErr};
ghost use Rattle.std.proofs.lemmas.List.Edits.{sets};
ghost use Rattle.std.specs.Io.KnownBytes.{Consumes, IsAtEnd};
ghost use Rattle.replay.specs.Words.{word_at, nan_pattern};
ghost use Rattle.replay.specs.Rows.{IsPrefixLen, LosesFront, up_to, double_at, corner_at, at_most, same_as, same_all, any_of, begun, ended_at, passed_by, judged_by};

use std::io;
use std::io::Read;

// The next row of so many words, at the front of a slice. How many bytes were read: 0 where the list has ended, and fewer than the row has only where it ends within
// the row. What lies behind the row is left as it was, also after an error, which says that the file could not be read.
pub fn next<R: Read>(file: &mut R, words: usize, row: &mut [u8]) -> io::Result<usize>
    requires { 17 * words ≤ length row.old }
    ensures count { IfOk result (λ n. IsPrefixLen n row.new × (n ≤ 17 * words)) }
    ensures bytes { IfOk result (λ n. Consumes (R.remaining file.old) (R.remaining file.new) (take n row.new)) }
    ensures ended { IfOk result (λ n. n < 17 * words → IsAtEnd (R.remaining file.new)) }
    ensures err { OnErr result (LosesFront (R.remaining file.old) (R.remaining file.new) row.new) }
    ensures behind { drop (17 * words) row.new ≡ drop (17 * words) row.old }
{
    let end = 17 * words;
    crate::read_full(file, &mut row[0..end])
}

// The double that is word k of a row.
pub fn double(row: &[u8], k: usize) -> f64
    ensures { result ≡ double_at row.now k }
{
    float::from_bits(crate::word(row, k))
}

// Whether an answer is the one recorded. All NaNs count as equal.
pub fn same(answer: f64, recorded: f64) -> bool
    ensures { result ≡ same_as answer recorded }
{
    crate::same_double(float::bits(answer), float::bits(recorded))
}

// n, and at most `most`.
pub fn at_most(n: usize, most: usize) -> usize
    ensures { (result ≡ at_most most n) × (result ≤ most) }
{
    n.min(most)
}

// n doubles from word k on, or as many as there is room for, at the front of a slice.
pub fn doubles(row: &[u8], k: usize, n: usize, out: &mut [f64])
    requires { k + length out.old ≤ 0x1000_0000 }
    ensures { out.new ≡ sets out.old 0 (up_to (λ i. double_at row.now (k + i)) (at_most (length out.old) n)) }
{
    let m = at_most(n, out.len());
    for i in 0..m {
        out[i] = double(row, k + i);
    }
}

fn corner(row: &[u8], k: usize) -> u32
    ensures { result ≡ corner_at row.now k }
{
    (crate::word(row, k) % 0x1_0000_0000) as u32
}

// The corners of a row.
// Kept: it differs from `doubles` in how a word is read; a generic one would take that as a closure with clauses.
pub fn corners(row: &[u8], k: usize, n: usize, out: &mut [u32])
    requires { k + length out.old ≤ 0x1000_0000 }
    ensures { out.new ≡ sets out.old 0 (up_to (λ i. corner_at row.now (k + i)) (at_most (length out.old) n)) }
{
    let m = at_most(n, out.len());
    for i in 0..m {
        out[i] = corner(row, k + i);
    }
}

// The count that word k gives, at most `most`.
pub fn count(row: &[u8], k: usize, most: usize) -> usize
    ensures { (result ≡ at_most most (word_at row.now k)) × (result ≤ most) }
{
    at_most(crate::word(row, k) as usize, most)
}

// Whether two slices hold the same doubles. All NaNs count as equal.
pub fn same_doubles(a: &[f64], b: &[f64]) -> bool
    ensures { result ≡ same_all same_as a.now b.now }
{
    if a.len() != b.len() {
        return false;
    }
    for i in 0..a.len() {
        if !same(a[i], b[i]) {
            return false;
        }
    }
    true
}

// Whether two slices hold the same numbers.
pub fn same_numbers(a: &[u32], b: &[u32]) -> bool
    ensures { result ≡ same_all nat_eq a.now b.now }
{
    a == b
}

// Whether one of n words, from word k on, is w.
pub fn has_word(row: &[u8], k: usize, n: usize, w: u64) -> bool
    requires { k + n ≤ 0x1000_0000 }
    ensures { result ≡ any_of (λ i. nat_eq (word_at row.now (k + i)) w) n }
{
    (0..n).any(|i| crate::word(row, k + i) == w)
}

// Whether one of them is the pattern of a NaN.
pub fn has_nan(row: &[u8], k: usize, n: usize) -> bool
    requires { k + n ≤ 0x1000_0000 }
    ensures { result ≡ any_of (λ i. nan_pattern (word_at row.now (k + i))) n }
{
    (0..n).any(|i| crate::is_nan_pattern(crate::word(row, k + i)))
}

// A list that is being read: how many more rows may be read, how many were judged, and how many of those differ. What is left falls with each row and is 0
// once the list has ended, so that a loop over a list is known to end.
#[derive(Clone, Copy)]
pub struct Reading {
    pub left: u64,
    pub recorded: u64,
    pub differ: u64,
}

// A list of which nothing is read yet.
pub fn begin() -> Reading
    ensures { result ≡ begun }
{
    Reading {
        left: u64::MAX,
        recorded: 0,
        differ: 0,
    }
}

// The list has ended.
pub fn ended(at: Reading) -> Reading
    requires { 0 < at.left }
    ensures { (result ≡ ended_at at) × (result.left < at.left) }
{
    Reading { left: 0, ..at }
}

// A row was passed over.
pub fn passed(at: Reading) -> Reading
    requires { 0 < at.left }
    ensures { (result ≡ passed_by at) × (result.left < at.left) }
{
    Reading {
        left: at.left - 1,
        ..at
    }
}

// One row more, which holds for the program too, or differs.
pub fn judged(at: Reading, holds: bool) -> Reading
    requires { 0 < at.left }
    ensures { (result ≡ judged_by holds at) × (result.left < at.left) }
{
    let next = Reading {
        recorded: at.recorded.wrapping_add(1),
        ..passed(at)
    };
    if holds {
        return next;
    }
    Reading {
        differ: at.differ.wrapping_add(1),
        ..next
    }
}
