// The integrals of the mass and the Dirichlet energy over a triangle with holonomy ω: MassIJ and DirichletIJ of
// Knöppel et al. (2013), appendix D, and the diagonal of the Dirichlet matrix. By series strictly below |ω| = 0.1,
// where the closed forms cancel, and by the closed forms from 0.1 on.
#![tactic(auto)]

ghost use Rattle.std.specs.Prelude.{◌≡◌};
ghost use Rattle.integrals.specs.Integrals.{by_series, mass_series, mass_closed, mass_integral, dirichlet_series, dirichlet_closed, dirichlet_integral, dirichlet_diagonal};
ghost use Rattle.integrals.specs.Factors.{series_of, closed_of, factors_of};
ghost use Rattle.complex.specs.Complex.{from_angle};

use complex::Complex;
use plane::Pair;

// The factors of g11 + g22 and of g12 in the real and the imaginary part of the Dirichlet integral's series.
#[derive(Clone, Copy)]
pub struct Series {
    pub edges_re: f64,
    pub g12_re: f64,
    pub edges_im: f64,
    pub g12_im: f64,
}

// The phase cos ω + i sin ω of both closed forms, and 1 / ω⁴ of the Dirichlet integral's.
#[derive(Clone, Copy)]
pub struct Closed {
    pub phase: Complex,
    pub recip: f64,
}

// What the integrals take of ω alone, made once for the three sides of a triangle.
// Kept: an enum of its own, since neither is an error and neither is missing.
#[derive(Clone, Copy)]
pub enum Factors {
    Series(Series),
    Closed(Closed),
}

// Below it both integrals are made by series, since the closed forms cancel there.
const INTEGRAL_SERIES_THRESHOLD: f64 = 0.1;

// Whether the series serve: strictly below the threshold.
fn by_series(omega: f64) -> bool
    ensures { result ≡ by_series omega }
{
    float::abs(omega) < INTEGRAL_SERIES_THRESHOLD
}

fn series_of(omega: f64) -> Series
    ensures { result ≡ series_of omega }
{
    let o2 = omega * omega;
    let o4 = o2 * o2;
    let o6 = o4 * o2;
    let o8 = o4 * o4;
    Series {
        edges_re: o2 / 120.0 - o4 / 2688.0 + o6 / 129600.0 - o8 / 10644480.0,
        g12_re: o2 / 45.0 - o4 / 1120.0 + o6 / 56700.0 - o8 / 4790016.0,
        edges_im: -1.0 / 24.0 + o2 / 504.0 - o4 / 17280.0 + o6 / 1108800.0,
        g12_im: -1.0 / 24.0 + 5.0 * o2 / 1008.0 - 7.0 * o4 / 51840.0 + o6 / 492800.0,
    }
}

fn closed_of(omega: f64) -> Closed
    ensures { result ≡ closed_of omega }
{
    let o2 = omega * omega;
    let phase = Complex::from_angle(omega);
    Closed {
        phase,
        recip: float::recip(o2 * o2),
    }
}

pub fn factors_of(omega: f64) -> Factors
    ensures { result ≡ factors_of omega }
{
    if by_series(omega) {
        return Factors::Series(series_of(omega));
    }
    Factors::Closed(closed_of(omega))
}

fn mass_series(omega: f64) -> Complex
    ensures { result ≡ mass_series omega }
{
    let o2 = omega * omega;
    let o4 = o2 * o2;
    let o6 = o4 * o2;
    let o8 = o4 * o4;
    let re = 1.0 / 12.0 - o2 / 360.0 + o4 / 20160.0 - o6 / 1814400.0 + o8 / 239500800.0;
    let im = omega * (1.0 / 60.0 - o2 / 2520.0 + o4 / 181440.0 - o6 / 19958400.0);
    Complex::new(re, im)
}

fn mass_closed(omega: f64, phase: Complex) -> Complex
    requires { phase ≡ from_angle omega }
    ensures { result ≡ mass_closed omega }
{
    let a = phase.scale(6.0).sub(Complex::new(6.0, 0.0));
    let b = a.sub(Complex::new(0.0, 6.0 * omega));
    let c = b.add(Complex::new(3.0 * omega * omega, 0.0));
    let numerator = c.add(Complex::new(0.0, omega * omega * omega));
    numerator.scale(float::recip(3.0 * omega * omega * omega * omega))
}

pub fn mass_by(omega: f64, f: Factors) -> Complex
    requires { f ≡ factors_of omega }
    ensures { result ≡ mass_integral omega }
{
    match f {
        Factors::Series(_) => mass_series(omega),
        Factors::Closed(c) => mass_closed(omega, c.phase),
    }
}

pub fn mass_integral(omega: f64) -> Complex
    ensures { result ≡ mass_integral omega }
{
    mass_by(omega, factors_of(omega))
}

fn dirichlet_series(omega: f64, s: Series, g11: f64, g12: f64, g22: f64) -> Complex
    requires { s ≡ series_of omega }
    ensures { result ≡ dirichlet_series omega g11 g12 g22 }
{
    let edges = g11 + g22;
    let re = -0.25 * g12 + edges * s.edges_re + g12 * s.g12_re;
    let im = omega * (edges * s.edges_im + g12 * s.g12_im);
    Complex::new(re, im)
}

fn dirichlet_closed(omega: f64, f: Closed, g11: f64, g12: f64, g22: f64) -> Complex
    requires { f ≡ closed_of omega }
    ensures { result ≡ dirichlet_closed omega g11 g12 g22 }
{
    let o2 = omega * omega;
    let o3 = o2 * omega;
    let o4 = o2 * o2;
    let o5 = o4 * omega;
    let a = 3.0 * g11 + 4.0 * g12 + 3.0 * g22;
    let b = g11 + g12 + g22;
    let c = g11 - 2.0 * g12 + g22;
    let d = g11 + 2.0 * g12 + g22;
    let e = 2.0 * g11 + 3.0 * g12 + 2.0 * g22;
    let front = Complex::new(-a + 0.5 * o2 * d, omega * e);
    let tail = front.mul(f.phase);
    let head = Complex::new(
        a + o4 * c / 24.0,
        omega * b - o3 * g12 / 6.0 - o5 * c / 60.0,
    );
    head.add(tail).scale(f.recip)
}

pub fn dirichlet_by(omega: f64, f: Factors, g11: f64, g12: f64, g22: f64) -> Complex
    requires { f ≡ factors_of omega }
    ensures { result ≡ dirichlet_integral omega g11 g12 g22 }
{
    match f {
        Factors::Series(s) => dirichlet_series(omega, s, g11, g12, g22),
        Factors::Closed(c) => dirichlet_closed(omega, c, g11, g12, g22),
    }
}

pub fn dirichlet_integral(omega: f64, g11: f64, g12: f64, g22: f64) -> Complex
    ensures { result ≡ dirichlet_integral omega g11 g12 g22 }
{
    dirichlet_by(omega, factors_of(omega), g11, g12, g22)
}

// The diagonal entry of the first of three positions in counter-clockwise order.
pub fn dirichlet_diagonal(omega: f64, area: f64, positions: [Pair; 3]) -> f64
    ensures { result ≡ dirichlet_diagonal omega area positions }
{
    let center = positions[0];
    let next = positions[1];
    let previous = positions[2];
    let p_cu = plane::sub2(next, center);
    let p_cv = plane::sub2(previous, center);
    let opposite = plane::sub2(previous, next);
    let sum = plane::dot2(p_cu, p_cu) + plane::dot2(p_cu, p_cv) + plane::dot2(p_cv, p_cv);
    (plane::dot2(opposite, opposite) + omega * omega * sum / 90.0) / (4.0 * area)
}
