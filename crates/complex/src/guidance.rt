// Guidance on a refined floor: the angle at the midpoint of a cut side, from the angles at its ends, the lower end's first.
ghost use Rattle.std.specs.Prelude.{◌≡◌};
ghost use Rattle.complex.specs.Guidance.{fourfold, norm_of, mean_or, mid_angle};

use crate::Complex;

pub fn fourfold_direction(angle: f64) -> Complex
    ensures { result ≡ fourfold angle }
{
    Complex::from_angle(crate::FIELD_SYMMETRY * angle)
}

pub fn norm(z: Complex) -> f64
    ensures { result ≡ norm_of z }
{
    root::sqrt(z.re * z.re + z.im * z.im)
}

fn mean_or(low: f64, sum: Complex) -> f64
    ensures { result ≡ mean_or low sum }
{
    let size = norm(sum);
    if float::is_finite(size) && size > 1e-12 {
        return crate::cross_angle(sum);
    }
    low
}

// The circular mean of two targets in the fourth-power representation.
pub fn mid_angle(low: f64, high: f64) -> f64
    ensures { result ≡ mid_angle low high }
{
    let first = fourfold_direction(low);
    let second = fourfold_direction(high);
    mean_or(low, first.add(second))
}
