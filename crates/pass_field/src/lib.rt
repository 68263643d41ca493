// The angles of a field from the values that a solve found, in regions of one lent slice: the Rust's `angles_from`.
#![tactic(auto)]

ghost use Rattle.std.specs.Prelude.{◌≡◌, ◌+◌, ◌*◌, ◌<◌, ◌≤◌, length, set};
ghost use Rattle.complex.specs.Angle.{cross_angle};
ghost use Rattle.linear_cells.specs.Region.{put};
ghost use Rattle.linear_cells.specs.Cell.{get_c, region_c};
ghost use Rattle.pass_field.specs.Field.{finite, all_finite, cross_angles};
ghost use Rattle.pass_field.specs.Work.{FieldRoom, Fields};

use complex::Complex;
use linear_cells::{load, store_real};
use refusals::Refusal;

fn is_finite(z: Complex) -> bool
    ensures { result ≡ finite z }
{
    if float::is_finite(z.re) {
        return float::is_finite(z.im);
    }
    false
}

// Whether all n values are finite.
fn all_finite(work: &[f64], x: usize, n: usize) -> bool
    requires { x + 2 * n ≤ length work.now }
    ensures { result ≡ all_finite (region_c work.now x n) }
{
    for i in 0..n {
        if !is_finite(load(work, x, n, i)) {
            return false;
        }
    }
    true
}

fn angle_at(work: &mut [f64], x: usize, at: usize, n: usize, i: usize)
    requires { (i < n) × (x + n + i < length work.old) × (at + i < length work.old) }
    ensures { work.new ≡ set work.old (at + i) (cross_angle (get_c work.old x n i)) }
{
    let angle = complex::cross_angle(load(work, x, n, i));
    store_real(work, at, i, angle);
}

fn cross_angles(work: &mut [f64], x: usize, at: usize, n: usize)
    requires { FieldRoom (length work.old) x at n }
    ensures { work.new ≡ put work.old at (cross_angles (region_c work.old x n)) }
{
    for i in 0..n {
        angle_at(work, x, at, n, i);
    }
}

// The angles of the n values at x, at `at`; or refusal 24 by reason 13, with nothing written.
pub fn angles_from(work: &mut [f64], x: usize, at: usize, n: usize) -> Result<(), Refusal>
    requires { FieldRoom (length work.old) x at n }
    ensures { Fields work.old work.new x at n result }
{
    if !all_finite(work, x, n) {
        return Err(refusals::gave_up(13, 0));
    }
    cross_angles(work, x, at, n);
    Ok(())
}
