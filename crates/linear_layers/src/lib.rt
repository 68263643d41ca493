// Wrappers that check the linear solver's preconditions at run time, some under C calling rules: for comparison and timing beside the Rust. No part of the
// product.
#![tactic(auto)]

ghost use Rattle.std.specs.Prelude.{◌≡◌, true, ◌+◌, ◌*◌, ◌^◌, ◌≤◌, ◌<◌, length};
ghost use Rattle.linear_cells.specs.Region.{put};
ghost use Rattle.linear_hermitian.specs.Work.{Graph};
ghost use Rattle.linear_layers.specs.Checked.{good, roomy, matrix_for, vectors_for, packing_for, source_for, numbers_for};
ghost use Rattle.linear_layers.specs.Checked.{Runs, SolveChecked, SolveTold, NormalChecked};

use linear_conjugate_gradient::{Reason, Vectors, conjugate_gradient, normalize_in_mass};
use linear_hermitian::Hermitian;
use linear_packing::{Packing, Source};

fn is_good(work: &[f64], n: usize, from: &[u32], to: &[u32]) -> bool
    ensures { result ≡ good (length work.now) n from.now to.now }
{
    if work.len() < n {
        return false;
    }
    if work.len() < from.len() {
        return false;
    }
    if work.len() < 10 * n + 6 * from.len() {
        return false;
    }
    linear_adjacency::lent::are_edges(n, from, to)
}

fn matrix_for(n: usize, m: usize) -> Hermitian
    ensures { result ≡ matrix_for n m }
{
    Hermitian {
        size: n,
        edges: m,
        diagonal: 0,
        off: n,
    }
}

fn vectors_for(n: usize, m: usize) -> Vectors
    requires { 10 * n + 6 * m < 2 ^ 64 }
    ensures { result ≡ vectors_for n m }
{
    let x = n + 6 * m;
    let residual = x + 2 * n;
    let direction = residual + 2 * n;
    let applied = direction + 2 * n;
    Vectors {
        x,
        residual,
        direction,
        applied,
        inverse: applied + 2 * n,
    }
}

// Whether `numbers` has room for the packed copy of n rows and m edges, and each of its numbers is a u32.
fn has_room(numbers: &[u32], n: usize, m: usize) -> bool
    ensures { result ≡ roomy (length numbers.now) n m }
{
    if n >= 0x1_0000_0000 {
        return false;
    }
    if m >= 0x4000_0000 {
        return false;
    }
    2 * n + 1 + 6 * m <= numbers.len()
}

// Where the packed copy stands, and what it is made from.
fn packing_for(n: usize, m: usize) -> Packing
    requires { (n < 2 ^ 32) × (m < 2 ^ 32) }
    ensures { result ≡ packing_for n m }
{
    Packing {
        size: n,
        slots: 2 * m,
        entries: n + 2 * m,
        starts: 0,
        neighbours: n + 1,
        marks: n + 1 + 6 * m,
    }
}

fn source_for(n: usize, m: usize) -> Source
    requires { (n < 2 ^ 32) × (m < 2 ^ 32) }
    ensures { result ≡ source_for n m }
{
    Source {
        edges: m,
        from: n + 1 + 4 * m,
        to: n + 1 + 5 * m,
        halves: n + 1 + 2 * m,
    }
}

// Copies the ends of the edges to `at`.
fn put_ends(ends: &[u32], numbers: &mut [u32], at: usize)
    requires { at + length ends.now ≤ length numbers.old }
    ensures { numbers.new ≡ put numbers.old at ends.now }
{
    numbers[at..at + ends.len()].copy_from_slice(ends);
}

// What depends on the edges alone of the packed copy.
fn number_edges(numbers: &mut [u32], n: usize, from: &[u32], to: &[u32])
    requires from_value { roomy (length numbers.old) n (length from.now) ≡ true }
    requires graph { Graph (matrix_for n (length from.now)) from.now to.now }
    ensures { numbers.new ≡ numbers_for numbers.old n from.now to.now }
{
    let copy = packing_for(n, from.len());
    let source = source_for(n, from.len());
    put_ends(from, numbers, source.from);
    put_ends(to, numbers, source.to);
    linear_packing::pack(numbers, copy, source);
}

// The solve, where all tests are passed.
fn run(
    work: &mut [f64],
    n: usize,
    from: &[u32],
    to: &[u32],
    numbers: &mut [u32],
    tolerance: f64,
    most: usize,
) -> Result<usize, Reason>
    requires to_value { good (length work.old) n from.now to.now ≡ true }
    requires from_value { roomy (length numbers.old) n (length from.now) ≡ true }
    ensures { Runs work.old work.new n from.now to.now numbers.old numbers.new tolerance most result }
{
    number_edges(numbers, n, from, to);
    let h = matrix_for(n, from.len());
    let l = vectors_for(n, from.len());
    let copy = packing_for(n, from.len());
    let source = source_for(n, from.len());
    linear_packing::entries(work, numbers, h, copy, source);
    conjugate_gradient(work, h, l, from, to, numbers, copy, tolerance, most)
}

// The slice holds the diagonal, the entries off it, room for those of the packed copy, the iterate's region, the right-hand side, and room for three vectors.
// `numbers` is scratch for the packed copy: one number for each row and one more, six for each edge, and one for each two rows.
// None where the slices have not this form: nothing is written then.
pub fn solve(
    work: &mut [f64],
    n: usize,
    from: &[u32],
    to: &[u32],
    numbers: &mut [u32],
    tolerance: f64,
    most: usize,
) -> Option<Result<usize, Reason>>
    ensures { SolveChecked work.old work.new n from.now to.now numbers.old numbers.new tolerance most result }
{
    if !is_good(work, n, from, to) {
        return None;
    }
    if !has_room(numbers, n, from.len()) {
        return None;
    }
    Some(run(work, n, from, to, numbers, tolerance, most))
}

// The same for C and Rust: whether the slices have the form that is asked for.
#[unsafe(no_mangle)]
pub extern "C" fn layers_conjugate_gradient(
    work: &mut [f64],
    n: usize,
    from: &[u32],
    to: &[u32],
    numbers: &mut [u32],
    tolerance: f64,
    most: usize,
) -> bool
    ensures { SolveTold work.old work.new n from.now to.now numbers.old numbers.new tolerance most result }
{
    solve(work, n, from, to, numbers, tolerance, most).is_some()
}

// The same slice; the vector is the iterate's.
pub fn normalize(work: &mut [f64], n: usize, from: &[u32], to: &[u32]) -> Option<Result<(), Reason>>
    ensures { NormalChecked work.old work.new n from.now to.now result }
{
    if !is_good(work, n, from, to) {
        return None;
    }
    let h = matrix_for(n, from.len());
    let l = vectors_for(n, from.len());
    Some(normalize_in_mass(work, l.x, l.direction, h, from, to))
}
