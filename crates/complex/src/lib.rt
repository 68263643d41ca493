// Complex numbers by value, as in the Rust, and the two functions that turn them to angles:
// `cross_angle`, the angle of a cross in [0, FRAC_PI_2), and `wrap_to_pi`, an angle in (-PI, PI]. Module guidance has the angle at a midpoint.
#![tactic(auto)]

pub mod guidance;

ghost use Rattle.std.specs.Prelude.{◌≡◌};
ghost use Rattle.complex.specs.Complex.{cnew, from_angle, cadd, csub, cmul, cscale, cconj, is_zero, argument_of};
ghost use Rattle.complex.specs.Angle.{cross_angle, wrap_to_pi, IsCross, WrapRange};

// A cross has four directions: its angle stands for the argument of the fourth power.
pub const FIELD_SYMMETRY: f64 = 4.0;

// The size of the largest angle that is taken.
pub const LARGEST_ANGLE: f64 = 131072.0;

#[derive(Clone, Copy, PartialEq)]
pub struct Complex {
    pub re: f64,
    pub im: f64,
}

impl Complex {
    pub const ZERO: Complex = Complex { re: 0.0, im: 0.0 };

    pub const ONE: Complex = Complex { re: 1.0, im: 0.0 };

    pub fn new(re: f64, im: f64) -> Self
        ensures { result ≡ cnew re im }
    {
        Self { re, im }
    }

    // cos angle + i sin angle.
    pub fn from_angle(angle: f64) -> Self
        ensures { result ≡ from_angle angle }
    {
        let both = sine::sin_cos(angle);
        Self {
            re: both.cos,
            im: both.sin,
        }
    }

    pub fn add(self, other: Complex) -> Self
        ensures { result ≡ cadd self other }
    {
        Self {
            re: self.re + other.re,
            im: self.im + other.im,
        }
    }

    pub fn sub(self, other: Complex) -> Self
        ensures { result ≡ csub self other }
    {
        Self {
            re: self.re - other.re,
            im: self.im - other.im,
        }
    }

    pub fn mul(self, other: Complex) -> Self
        ensures { result ≡ cmul self other }
    {
        Self {
            re: self.re * other.re - self.im * other.im,
            im: self.re * other.im + self.im * other.re,
        }
    }

    pub fn scale(self, factor: f64) -> Self
        ensures { result ≡ cscale self factor }
    {
        Self {
            re: self.re * factor,
            im: self.im * factor,
        }
    }

    pub fn conj(self) -> Self
        ensures { result ≡ cconj self }
    {
        Self {
            re: self.re,
            im: -self.im,
        }
    }

    // Whether both parts are 0, of either sign.
    pub fn is_zero(self) -> bool
        ensures { result ≡ is_zero self }
    {
        self == Self::ZERO
    }

    // The angle in [-PI, PI] of the number seen from zero.
    pub fn argument(self) -> f64
        ensures { result ≡ argument_of self }
    {
        arctangent::atan2(self.im, self.re)
    }
}

// The cross angle in [0, FRAC_PI_2) of a fourth power.
pub fn cross_angle(value: Complex) -> f64
    ensures value { result ≡ cross_angle value }
    ensures range { IsCross result }
{
    let angle = float::rem_euclid(value.argument() / FIELD_SYMMETRY, float::FRAC_PI_2);
    if 0.0 <= angle && angle < float::FRAC_PI_2 {
        return angle;
    }
    0.0
}

// The angle moved by whole turns into (-PI, PI], where angle + PI is finite; NaN elsewhere.
pub fn wrap_to_pi(angle: f64) -> f64
    ensures value { result ≡ wrap_to_pi angle }
    ensures range { WrapRange angle result }
{
    let wrapped = float::rem_euclid(angle + float::PI, float::TAU) - float::PI;
    if wrapped <= -float::PI {
        return wrapped + float::TAU;
    }
    wrapped
}
