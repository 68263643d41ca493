// The start vector of the inverse iteration, in a region of one lent slice, from the points' planes of x and of y.
ghost use Rattle.std.specs.Prelude.{◌≡◌, ◌+◌, ◌*◌, ◌<◌, ◌≤◌, length, get_or};
ghost use Rattle.std.specs.Float.{nan};
ghost use Rattle.float.specs.Double.{max_of, min_of};
ghost use Rattle.linear_cells.specs.Region.{region};
ghost use Rattle.linear_cells.specs.Cell.{set_c, put_c};
ghost use Rattle.pass_inverse_iteration.specs.Start.{bounds_of, center_of, inverse_span, ramp_of, start_at, ramped_by, start_of, StartRoom};

use complex::Complex;
use linear_cells::{load_real, store};

// The lowest and the highest of some coordinates.
#[derive(Clone, Copy)]
struct Extent {
    low: f64,
    high: f64,
}

// The center of the bounding box, and the reciprocal of its longer side.
#[derive(Clone, Copy)]
struct Ramp {
    x: f64,
    y: f64,
    inverse: f64,
}

fn bounds_at(work: &[f64], b: usize, i: usize, known: Extent) -> Extent
    requires { b + i < length work.now }
    ensures { (result.low ≡ min_of known.low (get_or work.now (b + i) nan)) × (result.high ≡ max_of known.high (get_or work.now (b + i) nan)) }
{
    let value = load_real(work, b, i);
    Extent {
        low: float::min(known.low, value),
        high: float::max(known.high, value),
    }
}

fn bounds(work: &[f64], b: usize, n: usize) -> Extent
    requires { b + n ≤ length work.now }
    ensures { result ≡ bounds_of (region nan work.now b n) }
{
    let mut known = Extent {
        low: 1.0 / 0.0,
        high: -1.0 / 0.0,
    };
    for i in 0..n {
        known = bounds_at(work, b, i, known);
    }
    known
}

fn center(b: Extent) -> f64
    ensures { result ≡ center_of b }
{
    0.5 * (b.low + b.high)
}

fn inverse_span(span: f64) -> f64
    ensures { result ≡ inverse_span span }
{
    if span > 0.0 {
        return float::recip(span);
    }
    1.0
}

fn ramp_of(x: Extent, y: Extent) -> Ramp
    ensures { result ≡ ramp_of x y }
{
    let span = float::max(x.high - x.low, y.high - y.low);
    Ramp {
        x: center(x),
        y: center(y),
        inverse: inverse_span(span),
    }
}

fn start_at(r: Ramp, px: f64, py: f64) -> Complex
    ensures { result ≡ start_at r px py }
{
    let place = Complex::new((px - r.x) * r.inverse, (py - r.y) * r.inverse);
    Complex::ONE.add(place.scale(0.05))
}

fn start_one(work: &mut [f64], x: usize, y: usize, at: usize, n: usize, r: Ramp, i: usize)
    requires { (i < n) × (at + n + i < length work.old) × (x + i < length work.old) × (y + i < length work.old) }
    ensures { work.new ≡ set_c work.old at n i (start_at r (get_or work.old (x + i) nan) (get_or work.old (y + i) nan)) }
{
    let z = start_at(r, load_real(work, x, i), load_real(work, y, i));
    store(work, at, n, i, z);
}

fn ramped(work: &mut [f64], x: usize, y: usize, at: usize, n: usize, r: Ramp)
    requires { StartRoom (length work.old) x y at n }
    ensures { work.new ≡ put_c work.old at (ramped_by r (region nan work.old x n) (region nan work.old y n)) }
{
    for i in 0..n {
        start_one(work, x, y, at, n, r, i);
    }
}

// The start vector of the n points whose coordinates stand from x and from y on.
pub fn start(work: &mut [f64], x: usize, y: usize, at: usize, n: usize)
    requires { StartRoom (length work.old) x y at n }
    ensures { work.new ≡ put_c work.old at (start_of (region nan work.old x n) (region nan work.old y n)) }
{
    let r = ramp_of(bounds(work, x, n), bounds(work, y, n));
    ramped(work, x, y, at, n, r);
}
