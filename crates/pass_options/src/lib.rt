// What a pass is asked for, beside its floor: the Rust's `Options` and `BoundaryMode`, and rows 9 to 17 of document 01's table. specs/Pass.antt says what
// any pass has to meet.
#![tactic(auto)]

ghost use Rattle.std.specs.Prelude.{◌≡◌, ◌∷◌, [], length};
ghost use Rattle.floor.specs.Checks.{found_below};
ghost use Rattle.pass_options.specs.Table.{first_of};
ghost use Rattle.pass_options.specs.Options.{guidance_of, bad_holomorphic, bad_boundary, not_finite_at, too_large, too_large_at, option_rows, guidance_rows, large_row};

use refusals::{Refusal, refused};

// How the field is held on the boundary.
#[derive(Clone, Copy)]
pub enum BoundaryMode {
    None,
    Tangent,
    Weak(f64),
}

// The Rust's `Options`, by value. `adaptive` is document 01's threshold.
#[derive(Clone, Copy)]
pub struct Options {
    pub accurate: bool,
    pub holomorphic: f64,
    pub anisotropy: f64,
    pub anisotropy_angle: f64,
    pub boundary: BoundaryMode,
    pub adaptive: f64,
}

// Row 9.
fn bad_holomorphic(h: f64) -> bool
    ensures { result ≡ bad_holomorphic h }
{
    if float::is_finite(h) {
        if -1.0 <= h {
            return !(h <= 1.0);
        }
        return true;
    }
    true
}

// Row 13.
fn bad_boundary(boundary: BoundaryMode) -> bool
    ensures { result ≡ bad_boundary boundary }
{
    match boundary {
        BoundaryMode::None => false,
        BoundaryMode::Tangent => false,
        BoundaryMode::Weak(weight) => floor::not_finite_or_below_zero(weight),
    }
}

// Row 17, of one angle.
fn too_large(x: f64) -> bool
    ensures { result ≡ too_large x }
{
    float::abs(x) > complex::LARGEST_ANGLE
}

fn not_finite_at(angles: &[f64], i: usize) -> bool
    ensures { result ≡ not_finite_at angles.now i }
{
    !float::is_finite(floor::read(angles, i))
}

fn too_large_at(angles: &[f64], i: usize) -> bool
    ensures { result ≡ too_large_at angles.now i }
{
    too_large(floor::read(angles, i))
}

// Row 16: the lowest angle that is not finite.
fn first_not_finite(angles: &[f64]) -> Option<usize>
    ensures { result ≡ found_below (not_finite_at angles.now) (length angles.now) }
{
    (0..angles.len()).find(|&i| not_finite_at(angles, i))
}

// Row 17: the lowest angle that is too large.
fn first_too_large(angles: &[f64]) -> Option<usize>
    ensures { result ≡ found_below (too_large_at angles.now) (length angles.now) }
{
    (0..angles.len()).find(|&i| too_large_at(angles, i))
}

// Rows 9 to 13.
pub fn check_options(options: Options) -> Result<(), Refusal>
    ensures { result ≡ first_of (option_rows options) }
{
    if bad_holomorphic(options.holomorphic) {
        return Err(refused(9, 0));
    }
    if float::not_positive(options.anisotropy) {
        return Err(refused(10, 0));
    }
    if !float::is_finite(options.anisotropy_angle) {
        return Err(refused(11, 0));
    }
    if floor::not_finite_or_below_zero(options.adaptive) {
        return Err(refused(12, 0));
    }
    let boundary = options.boundary;
    if bad_boundary(boundary) {
        return Err(refused(13, 0));
    }
    Ok(())
}

// Rows 14 to 16, of guidance over n points.
pub fn check_guidance(n: usize, guided: bool, weight: f64, angles: &[f64]) -> Result<(), Refusal>
    ensures { result ≡ first_of (guidance_rows n (guidance_of guided weight angles.now)) }
{
    if !guided {
        return Ok(());
    }
    if floor::not_finite_or_below_zero(weight) {
        return Err(refused(14, 0));
    }
    if angles.len() != n {
        return Err(refused(15, 0));
    }
    if let Some(i) = first_not_finite(angles) {
        return Err(refused(16, i));
    }
    Ok(())
}

// Row 17, of the anisotropy angle and then the guidance, over n points.
pub fn check_large(
    n: usize,
    options: Options,
    guided: bool,
    weight: f64,
    angles: &[f64],
) -> Result<(), Refusal>
    ensures { result ≡ first_of (large_row n options (guidance_of guided weight angles.now) ∷ []) }
{
    if too_large(options.anisotropy_angle) {
        return Err(refused(17, n));
    }
    if !guided {
        return Ok(());
    }
    if let Some(i) = first_too_large(angles) {
        return Err(refused(17, i));
    }
    Ok(())
}
