// The residual's step in conjugate gradients, with its product with itself and with the preconditioned residual: one pass over memory.
// Two neighbouring places are reduced at each iteration, and the sums take the terms of the pair before, so that the compiler packs both.
ghost use Rattle.std.specs.Prelude.{◌≡◌, ◌+◌, ◌*◌, ◌<◌, ◌≤◌, length, set};
ghost use Rattle.linear_cells.specs.Iter.{iter};
ghost use Rattle.linear_cells.specs.Cell.{set_c};
ghost use Rattle.linear_vectors.specs.Vectors.{sub_scaled};
ghost use Rattle.linear_vectors.specs.Residual.{products_at};
ghost use Rattle.linear_vectors.specs.ResidualWork.{ReduceRoom, Reduced, TermIn, term_at, put_term, term_step, pair_step, add_c, add_step, lag, lag_at, lag_step, no_sums};

use complex::Complex;
use linear_cells::{load, load_real, store, store_real};

// A residual's product with itself, and with the preconditioned residual.
#[derive(Clone, Copy)]
pub struct Sums {
    pub square: f64,
    pub next: f64,
}

// y - x * k.
fn sub_scaled(y: Complex, x: Complex, k: f64) -> Complex
    ensures { result ≡ sub_scaled k y x }
{
    y.sub(x.scale(k))
}

// The residual after its step at one place, and its two products there.
#[derive(Clone, Copy)]
struct Term {
    residual: Complex,
    products: Complex,
}

// z's product with itself, and with z * k.
fn products_at(z: Complex, k: f64) -> Complex
    ensures { result ≡ products_at z k }
{
    let v = z.scale(k);
    Complex {
        re: z.re * z.re + z.im * z.im,
        im: v.re * z.re + v.im * z.im,
    }
}

fn term_at(work: &[f64], r: usize, q: usize, inverse: usize, n: usize, alpha: f64, i: usize) -> Term
    requires { TermIn (length work.now) r q inverse n i }
    ensures { result ≡ term_at work.now r q inverse n alpha i }
{
    let z = sub_scaled(load(work, r, n, i), load(work, q, n, i), alpha);
    Term {
        residual: z,
        products: products_at(z, load_real(work, inverse, i)),
    }
}

fn term_one(work: &mut [f64], r: usize, q: usize, inverse: usize, n: usize, alpha: f64, i: usize)
    requires { TermIn (length work.old) r q inverse n i }
    ensures { work.new ≡ put_term work.old r q n i (term_at work.old r q inverse n alpha i) }
{
    let t = term_at(work, r, q, inverse, n, alpha, i);
    store(work, r, n, i, t.residual);
    store(work, q, n, i, t.products);
}

// `count` places from `first` on.
fn terms(
    work: &mut [f64],
    r: usize,
    q: usize,
    inverse: usize,
    n: usize,
    alpha: f64,
    first: usize,
    count: usize,
)
    requires { ReduceRoom (length work.old) r q inverse n × (first + count ≤ n) }
    ensures { work.new ≡ iter (term_step r q inverse n alpha first) count work.old }
{
    for k in 0..count {
        term_one(work, r, q, inverse, n, alpha, first + k);
    }
}

fn store_pair(work: &mut [f64], base: usize, i: usize, a: f64, b: f64)
    requires { base + (i + 1) < length work.old }
    ensures { work.new ≡ set (set work.old (base + i) a) (base + (i + 1)) b }
{
    store_real(work, base, i, a);
    store_real(work, base, i + 1, b);
}

// Cells i and i + 1: both real parts, and then both imaginary parts.
fn store_both(work: &mut [f64], base: usize, n: usize, i: usize, a: Complex, b: Complex)
    requires { (i + 1 < n) × (base + n + (i + 1) < length work.old) }
    ensures { work.new ≡ set_c (set_c work.old base n i a) base n (i + 1) b }
{
    store_pair(work, base, i, a.re, b.re);
    store_pair(work, base + n, i, a.im, b.im);
}

// Places i and i + 1, which are neighbours in memory: the loads of both come before the stores of either.
fn pair_at(work: &mut [f64], r: usize, q: usize, inverse: usize, n: usize, alpha: f64, i: usize)
    requires { TermIn (length work.old) r q inverse n (i + 1) }
    ensures { work.new ≡ pair_step r q inverse n alpha i work.old }
{
    let t = term_at(work, r, q, inverse, n, alpha, i);
    let u = term_at(work, r, q, inverse, n, alpha, i + 1);
    store_both(work, r, n, i, t.residual, u.residual);
    store_both(work, q, n, i, t.products, u.products);
}

// Both sums, with the products at one place.
fn add_cell(work: &[f64], q: usize, n: usize, i: usize, s: Sums) -> Sums
    requires { (i < n) × (q + n + i < length work.now) }
    ensures { result ≡ add_c work.now q n i s }
{
    let z = load(work, q, n, i);
    Sums {
        square: s.square + z.re,
        next: s.next + z.im,
    }
}

// `count` places from `first` on.
fn add_cells(work: &[f64], q: usize, n: usize, first: usize, count: usize, s: Sums) -> Sums
    requires { (first + count ≤ n) × (q + 2 * n ≤ length work.now) }
    ensures { result ≡ iter (add_step work.now q n first) count s }
{
    let mut t = s;
    for k in 0..count {
        t = add_cell(work, q, n, first + k, t);
    }
    t
}

// Places i + 2 and i + 3 are reduced, and the products at i and i + 1 are added.
fn lag_at(
    work: &mut [f64],
    r: usize,
    q: usize,
    inverse: usize,
    n: usize,
    alpha: f64,
    i: usize,
    s: Sums,
) -> Sums
    requires { TermIn (length work.old) r q inverse n (i + 3) }
    ensures { lag work.new result ≡ lag_at r q inverse n alpha i (lag work.old s) }
{
    pair_at(work, r, q, inverse, n, alpha, i + 2);
    let t = add_cell(work, q, n, i, s);
    add_cell(work, q, n, i + 1, t)
}

// Pairs 1 to `count`, with the sums one pair behind: so that the chain of additions waits for no store. The loop counts by the place, which the
// compiler then keeps in one register as the index of all that is loaded and stored.
// Kept: a `while`, as in linear_pairs::pair_terms, where a range by twos takes more instructions.
fn lagged(
    work: &mut [f64],
    r: usize,
    q: usize,
    inverse: usize,
    n: usize,
    alpha: f64,
    count: usize,
) -> Sums
    requires { ReduceRoom (length work.old) r q inverse n × (2 * count + 2 ≤ n) }
    ensures { lag work.new result ≡ iter (lag_step r q inverse n alpha) count (lag work.old no_sums) }
{
    let end = 2 * count;
    let mut s = no_sums();
    let mut i = 0;
    while i < end {
        s = lag_at(work, r, q, inverse, n, alpha, i, s);
        i = i + 2;
    }
    s
}

fn no_sums() -> Sums
    ensures { result ≡ no_sums }
{
    Sums {
        square: 0.0,
        next: 0.0,
    }
}

// r = r - q * alpha, with both sums. q is left with the terms of the sums.
pub fn reduce(work: &mut [f64], r: usize, q: usize, inverse: usize, n: usize, alpha: f64) -> Sums
    requires { ReduceRoom (length work.old) r q inverse n }
    ensures { Reduced work.old work.new r q inverse n alpha result }
{
    if n < 2 {
        terms(work, r, q, inverse, n, alpha, 0, n);
        return add_cells(work, q, n, 0, n, no_sums());
    }
    let count = n / 2 - 1;
    pair_at(work, r, q, inverse, n, alpha, 0);
    let s = lagged(work, r, q, inverse, n, alpha, count);
    let first = 2 * count;
    terms(work, r, q, inverse, n, alpha, first + 2, n - (first + 2));
    add_cells(work, q, n, first, n - first, s)
}
