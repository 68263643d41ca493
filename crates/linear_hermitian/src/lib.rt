// Hermitian matrices with a real diagonal and one complex entry an edge, and complex vectors, in regions of one lent slice:
// the real part of the Rust's `dot`, its `euclidean_norm`, `apply`, `shifted` and `trace`.
#![tactic(auto)]

ghost use Rattle.std.specs.Prelude.{◌≡◌, ◌+◌, ◌*◌, ◌<◌, ◌≤◌, length, get_or, set};
ghost use Rattle.std.specs.Float.{nan};
ghost use Rattle.float.specs.Double.{◌⊕◌, ◌⊗◌};
ghost use Rattle.complex.specs.Complex.{cadd, cmul, cscale};
ghost use Rattle.linear_cells.specs.Region.{region, put};
ghost use Rattle.linear_cells.specs.Cell.{get_c, set_c, region_c, put_c};
ghost use Rattle.linear_hermitian.specs.Hermitian.{dot_of, vector_norm, scaled, edged, applied, shifted_diagonal, shifted_off, trace_of};
ghost use Rattle.linear_hermitian.specs.Work.{matrix, shift_matrix, Graph, ScaleRoom, EdgesRoom, ApplyRoom, PairRoom, ShiftRoom, EdgeIn, re_term, ends_c, edge_c};

use complex::Complex;
use linear_cells::{load, load_real, store, store_real, wide};

// Where a matrix of `size` rows stands: `size` reals on its diagonal, and a vector of `edges` entries off it.
// The ends of the edges, the Rust's edge_a and edge_b, are lent beside it as `from` and `to`.
#[derive(Clone, Copy)]
pub struct Hermitian {
    pub size: usize,
    pub edges: usize,
    pub diagonal: usize,
    pub off: usize,
}

fn dot_re_at(work: &[f64], a: usize, b: usize, n: usize, i: usize, sum: f64) -> f64
    requires { (i < n) × (a + n + i < length work.now) × (b + n + i < length work.now) }
    ensures { result ≡ sum ⊕ re_term (get_c work.now a n i) (get_c work.now b n i) }
{
    let u = load(work, a, n, i);
    let v = load(work, b, n, i);
    sum + (u.re * v.re + u.im * v.im)
}

// The real part of the sum over i of conj(a[i]) * b[i].
pub fn dot_re(work: &[f64], a: usize, b: usize, n: usize) -> f64
    requires { (a + 2 * n ≤ length work.now) × (b + 2 * n ≤ length work.now) }
    ensures { result ≡ (dot_of (region_c work.now a n) (region_c work.now b n)).re }
{
    let mut sum = 0.0;
    for i in 0..n {
        sum = dot_re_at(work, a, b, n, i, sum);
    }
    sum
}

pub fn euclidean_norm(work: &[f64], a: usize, n: usize) -> f64
    requires { a + 2 * n ≤ length work.now }
    ensures { result ≡ vector_norm (region_c work.now a n) }
{
    root::sqrt(float::max(dot_re(work, a, a, n), 0.0))
}

fn scale_at(work: &mut [f64], y: usize, x: usize, diagonal: usize, n: usize, i: usize)
    requires { (i < n) × (y + n + i < length work.old) × (x + n + i < length work.old) × (diagonal + i < length work.old) }
    ensures { work.new ≡ set_c work.old y n i (cscale (get_c work.old x n i) (get_or work.old (diagonal + i) nan)) }
{
    let d = load_real(work, diagonal, i);
    let z = load(work, x, n, i).scale(d);
    store(work, y, n, i, z);
}

// y[i] = x[i] * diagonal[i], for each i.
pub fn scale(work: &mut [f64], y: usize, x: usize, diagonal: usize, n: usize)
    requires { ScaleRoom (length work.old) diagonal x y n }
    ensures { work.new ≡ put_c work.old y (scaled (region nan work.old diagonal n) (region_c work.old x n)) }
{
    for i in 0..n {
        scale_at(work, y, x, diagonal, n, i);
    }
}

// y[i] + z * x[j].
fn end_sum(work: &[f64], y: usize, x: usize, n: usize, i: usize, j: usize, z: Complex) -> Complex
    requires { (i < n) × (j < n) × (y + n + i < length work.now) × (x + n + j < length work.now) }
    ensures { result ≡ cadd (get_c work.now y n i) (cmul z (get_c work.now x n j)) }
{
    load(work, y, n, i).add(z.mul(load(work, x, n, j)))
}

// The two cells that an edge changes.
#[derive(Clone, Copy)]
struct Ends {
    a: Complex,
    b: Complex,
}

fn edge_ends(
    work: &[f64],
    y: usize,
    x: usize,
    off: usize,
    n: usize,
    m: usize,
    e: usize,
    a: usize,
    b: usize,
) -> Ends
    requires { EdgeIn (length work.now) y x off n m e a b }
    ensures { result ≡ ends_c work.now y x off n m e a b }
{
    let z = load(work, off, m, e);
    Ends {
        a: end_sum(work, y, x, n, a, b, z),
        b: end_sum(work, y, x, n, b, a, z.conj()),
    }
}

// Edge e of m, whose ends are a and b. Both sums are made before either is stored: a and b differ.
fn edge_one(
    work: &mut [f64],
    y: usize,
    x: usize,
    off: usize,
    n: usize,
    m: usize,
    e: usize,
    a: usize,
    b: usize,
)
    requires { EdgeIn (length work.old) y x off n m e a b }
    ensures { work.new ≡ edge_c work.old y x off n m e a b }
{
    let ends = edge_ends(work, y, x, off, n, m, e, a, b);
    store(work, y, n, a, ends.a);
    store(work, y, n, b, ends.b);
}

fn edge_at(work: &mut [f64], y: usize, x: usize, h: Hermitian, e: usize, from: &[u32], to: &[u32])
    requires e_in_bounds { (e < length from.now) × (e < length to.now) }
    requires edge_in { EdgeIn (length work.old) y x h.off h.size h.edges e (get_or from.now e 0) (get_or to.now e 0) }
    ensures { work.new ≡ edge_c work.old y x h.off h.size h.edges e (get_or from.now e 0) (get_or to.now e 0) }
{
    edge_one(
        work,
        y,
        x,
        h.off,
        h.size,
        h.edges,
        e,
        wide(from[e]),
        wide(to[e]),
    );
}

// Every edge in order: y[a] = y[a] + off * x[b], then y[b] = y[b] + conj(off) * x[a].
fn edges(work: &mut [f64], y: usize, x: usize, h: Hermitian, from: &[u32], to: &[u32])
    requires edges_room { EdgesRoom (length work.old) h.off x y h.size h.edges }
    requires graph { Graph h from.now to.now }
    ensures { work.new ≡ put_c work.old y
        (edged (matrix work.old h from.now to.now) (region_c work.old x h.size) (region_c work.old y h.size)) }
{
    for e in 0..from.len() {
        edge_at(work, y, x, h, e, from, to);
    }
}

// y = the matrix times x.
pub fn apply(work: &mut [f64], y: usize, x: usize, h: Hermitian, from: &[u32], to: &[u32])
    requires apply_room { ApplyRoom (length work.old) h x y }
    requires graph { Graph h from.now to.now }
    ensures { work.new ≡ put_c work.old y (applied (matrix work.old h from.now to.now) (region_c work.old x h.size)) }
{
    scale(work, y, x, h.diagonal, h.size);
    edges(work, y, x, h, from, to);
}

fn shift_real_at(work: &mut [f64], y: usize, x: usize, shift: f64, i: usize)
    requires { (y + i < length work.old) × (x + i < length work.old) }
    ensures { work.new ≡ set work.old (y + i) (get_or work.old (y + i) nan ⊕ shift ⊗ get_or work.old (x + i) nan) }
{
    let value = load_real(work, y, i) + shift * load_real(work, x, i);
    store_real(work, y, i, value);
}

fn shift_diagonal(work: &mut [f64], y: usize, x: usize, n: usize, shift: f64)
    requires { PairRoom (length work.old) x y n }
    ensures { work.new ≡ put work.old y (shifted_diagonal shift (region nan work.old x n) (region nan work.old y n)) }
{
    for i in 0..n {
        shift_real_at(work, y, x, shift, i);
    }
}

fn shift_at(work: &mut [f64], y: usize, x: usize, n: usize, shift: f64, i: usize)
    requires { (i < n) × (y + n + i < length work.old) × (x + n + i < length work.old) }
    ensures { work.new ≡ set_c work.old y n i (cadd (get_c work.old y n i) (cscale (get_c work.old x n i) shift)) }
{
    let value = load(work, y, n, i).add(load(work, x, n, i).scale(shift));
    store(work, y, n, i, value);
}

fn shift_off(work: &mut [f64], y: usize, x: usize, n: usize, shift: f64)
    requires { PairRoom (length work.old) x y (2 * n) }
    ensures { work.new ≡ put_c work.old y (shifted_off shift (region_c work.old x n) (region_c work.old y n)) }
{
    for i in 0..n {
        shift_at(work, y, x, n, shift, i);
    }
}

// h becomes h + shift * mass. Both have one edge list.
pub fn shifted(work: &mut [f64], h: Hermitian, shift: f64, mass: Hermitian)
    requires { ShiftRoom (length work.old) h mass }
    ensures { work.new ≡ shift_matrix work.old h shift mass }
{
    shift_diagonal(work, h.diagonal, mass.diagonal, h.size, shift);
    shift_off(work, h.off, mass.off, h.edges, shift);
}

fn trace_at(work: &[f64], diagonal: usize, i: usize, sum: f64) -> f64
    requires { diagonal + i < length work.now }
    ensures { result ≡ sum ⊕ get_or work.now (diagonal + i) nan }
{
    sum + load_real(work, diagonal, i)
}

// The sum of the n values of a diagonal.
pub fn trace(work: &[f64], diagonal: usize, n: usize) -> f64
    requires { diagonal + n ≤ length work.now }
    ensures { result ≡ trace_of (region nan work.now diagonal n) }
{
    let mut sum = -0.0;
    for i in 0..n {
        sum = trace_at(work, diagonal, i, sum);
    }
    sum
}
