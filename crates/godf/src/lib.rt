// The C interface. Each function calls one of a lower layer; include/godf.h declares and documents it.
#![tactic(auto)]

pub mod field;
pub mod product;
pub mod refine;
pub mod solve_call;
pub mod version;

ghost use Rattle.std.specs.Prelude.{◌≡◌, true};
ghost use Rattle.std.specs.Float.Ieee.{lt};
ghost use Rattle.float.specs.Double.{lit, is_finite};
ghost use Rattle.sine.specs.Sine.{sin_of, cos_of};
ghost use Rattle.arctangent.specs.Arc.{atan2_of};
ghost use Rattle.root.specs.Root.{root_of};
ghost use Rattle.root.specs.Nearest.{Nearest};

// Sine of x radians.
#[unsafe(no_mangle)]
pub extern "C" fn godf_sin(x: f64) -> f64
    ensures { result ≡ sin_of x }
{
    sine::sin(x)
}

// Cosine of x radians.
#[unsafe(no_mangle)]
pub extern "C" fn godf_cos(x: f64) -> f64
    ensures { result ≡ cos_of x }
{
    sine::cos(x)
}

// Angle of the point (x, y), from -pi to pi.
#[unsafe(no_mangle)]
pub extern "C" fn godf_atan2(y: f64, x: f64) -> f64
    ensures { result ≡ atan2_of y x }
{
    arctangent::atan2(y, x)
}

// Square root: for a positive finite x the nearest double.
#[unsafe(no_mangle)]
pub extern "C" fn godf_sqrt(x: f64) -> f64
    ensures value { result ≡ root_of x }
    ensures nearest { lt (lit 0) x ≡ true → is_finite x ≡ true → Nearest x result }
{
    root::sqrt(x)
}
