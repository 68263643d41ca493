// Vector updates of conjugate gradients without reductions, in regions of one work slice; what one loop over memory can serve is done in one. The residual's
// update, which has two reductions, is module residual.
#![tactic(auto)]

pub mod residual;

ghost use Rattle.std.specs.Prelude.{◌≡◌, ◌+◌, ◌*◌, ◌<◌, ◌≤◌, length, get_or, set};
ghost use Rattle.std.specs.Float.{nan};
ghost use Rattle.float.specs.Double.{recip_of};
ghost use Rattle.complex.specs.Complex.{cscale};
ghost use Rattle.linear_cells.specs.Region.{region, put};
ghost use Rattle.linear_cells.specs.Cell.{get_c, set_c, region_c, put_c};
ghost use Rattle.linear_hermitian.specs.Hermitian.{scaled};
ghost use Rattle.linear_hermitian.specs.Work.{PairRoom};
ghost use Rattle.linear_vectors.specs.Vectors.{zip_of, add_scaled, recips_of, scaled_by};
ghost use Rattle.linear_vectors.specs.Work.{DirectRoom, next_c, direct_c};

use complex::Complex;
use linear_cells::{load, load_real, store, store_real};

fn invert_at(work: &mut [f64], y: usize, d: usize, i: usize)
    requires { (y + i < length work.old) × (d + i < length work.old) }
    ensures { work.new ≡ set work.old (y + i) (recip_of (get_or work.old (d + i) nan)) }
{
    let value = float::recip(load_real(work, d, i));
    store_real(work, y, i, value);
}

// y[i] = 1 / d[i], for each i.
pub fn invert(work: &mut [f64], y: usize, d: usize, n: usize)
    requires { PairRoom (length work.old) d y n }
    ensures { work.new ≡ put work.old y (recips_of (region nan work.old d n)) }
{
    for i in 0..n {
        invert_at(work, y, d, i);
    }
}

// y + x * k.
fn add_scaled(y: Complex, x: Complex, k: f64) -> Complex
    ensures { result ≡ add_scaled k y x }
{
    y.add(x.scale(k))
}

fn advance_at(work: &mut [f64], y: usize, x: usize, n: usize, alpha: f64, i: usize)
    requires { (i < n) × (y + n + i < length work.old) × (x + n + i < length work.old) }
    ensures { work.new ≡ set_c work.old y n i (add_scaled alpha (get_c work.old y n i) (get_c work.old x n i)) }
{
    let z = add_scaled(load(work, y, n, i), load(work, x, n, i), alpha);
    store(work, y, n, i, z);
}

// y = y + x * alpha.
pub fn advance(work: &mut [f64], y: usize, x: usize, n: usize, alpha: f64)
    requires { PairRoom (length work.old) x y (2 * n) }
    ensures { work.new ≡ put_c work.old y (zip_of (add_scaled alpha) (region_c work.old y n) (region_c work.old x n)) }
{
    for i in 0..n {
        advance_at(work, y, x, n, alpha, i);
    }
}

// The next x and direction at one place.
#[derive(Clone, Copy)]
struct Next {
    x: Complex,
    p: Complex,
}

fn preconditioned_at(work: &[f64], r: usize, inverse: usize, n: usize, i: usize) -> Complex
    requires { (i < n) × (r + n + i < length work.now) × (inverse + i < length work.now) }
    ensures { result ≡ cscale (get_c work.now r n i) (get_or work.now (inverse + i) nan) }
{
    load(work, r, n, i).scale(load_real(work, inverse, i))
}

fn next_at(
    work: &[f64],
    x: usize,
    p: usize,
    r: usize,
    inverse: usize,
    n: usize,
    alpha: f64,
    beta: f64,
    i: usize,
) -> Next
    requires { (i < n) × (x + n + i < length work.now) × (p + n + i < length work.now) × (r + n + i < length work.now) × (inverse + i < length work.now) }
    ensures { result ≡ next_c work.now x p r inverse n alpha beta i }
{
    let z = load(work, p, n, i);
    Next {
        x: add_scaled(load(work, x, n, i), z, alpha),
        p: add_scaled(preconditioned_at(work, r, inverse, n, i), z, beta),
    }
}

fn direct_at(
    work: &mut [f64],
    x: usize,
    p: usize,
    r: usize,
    inverse: usize,
    n: usize,
    alpha: f64,
    beta: f64,
    i: usize,
)
    requires { (i < n) × (x + n + i < length work.old) × (p + n + i < length work.old) × (r + n + i < length work.old) × (inverse + i < length work.old) }
    ensures { work.new ≡ direct_c work.old x p r inverse n alpha beta i }
{
    let next = next_at(work, x, p, r, inverse, n, alpha, beta, i);
    store(work, x, n, i, next.x);
    store(work, p, n, i, next.p);
}

// x = x + p * alpha and p = preconditioned r + p * beta, in one pass.
pub fn direct(
    work: &mut [f64],
    x: usize,
    p: usize,
    r: usize,
    inverse: usize,
    n: usize,
    alpha: f64,
    beta: f64,
)
    requires { DirectRoom (length work.old) x p r inverse n }
    ensures { work.new ≡ put_c
        (put_c work.old x (zip_of (add_scaled alpha) (region_c work.old x n) (region_c work.old p n)))
        p (zip_of (add_scaled beta) (scaled (region nan work.old inverse n) (region_c work.old r n)) (region_c work.old p n)) }
{
    for i in 0..n {
        direct_at(work, x, p, r, inverse, n, alpha, beta, i);
    }
}

fn scale_at(work: &mut [f64], x: usize, n: usize, k: f64, i: usize)
    requires { (i < n) × (x + n + i < length work.old) }
    ensures { work.new ≡ set_c work.old x n i (cscale (get_c work.old x n i) k) }
{
    let z = load(work, x, n, i).scale(k);
    store(work, x, n, i, z);
}

// x[i] = x[i] * k, for each i.
pub fn scale_by(work: &mut [f64], x: usize, n: usize, k: f64)
    requires { x + 2 * n ≤ length work.old }
    ensures { work.new ≡ put_c work.old x (scaled_by k (region_c work.old x n)) }
{
    for i in 0..n {
        scale_at(work, x, n, k, i);
    }
}
