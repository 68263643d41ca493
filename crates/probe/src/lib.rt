// The probe: the cross angle of a field at a question point, interpolated in the first triangle in list order that holds it.
#![tactic(auto)]

ghost use Rattle.std.specs.Prelude.{◌≡◌, ◌+◌, ◌*◌, ◌<◌, ◌≤◌, length};
ghost use Rattle.probe.specs.Weights.{usable, within, weight_within, weighed, interpolated, answered};
ghost use Rattle.probe.specs.Probe.{taken, corner_at, visited_by, visit_of, visit_at, found_from, probe_of, AngleRange, error_number};

use complex::Complex;
use plane::Pair;

// A point's weights by the corners of a triangle; they add to 1, rounding aside.
#[derive(Clone, Copy)]
pub struct Weights {
    pub i: f64,
    pub j: f64,
    pub k: f64,
}

// Why there is no angle: slices not of whole triples (refusal 1), no triangle that answers, or an angle above 131,072 in size among those given.
#[derive(Clone, Copy, Debug, PartialEq, Eq)]
pub enum ProbeError {
    NotTriples,
    NoAngle,
    TooLarge,
}

// Its number in C.
impl From<ProbeError> for u32 {
    ghost from_gives = { λ error code. code ≡ error_number error };

    fn from(error: ProbeError) -> u32 {
        match error {
            ProbeError::NotTriples => 1,
            ProbeError::NoAngle => 2,
            ProbeError::TooLarge => 3,
        }
    }
}

// f64::MIN_POSITIVE.
const MIN_POSITIVE: f64 = 2.2250738585072014e-308;

// Whether a denominator is finite and above MIN_POSITIVE in size.
fn is_usable(denominator: f64) -> bool
    ensures { result ≡ usable denominator }
{
    if denominator > MIN_POSITIVE {
        return denominator < 1.0 / 0.0;
    }
    if denominator < -MIN_POSITIVE {
        return denominator > -1.0 / 0.0;
    }
    false
}

// Whether a weight lies in 0 to 1, but for 1e-12 on either side.
fn is_within(w: f64) -> bool
    ensures { result ≡ within w }
{
    if w < -1e-12 {
        return false;
    }
    !(w > 1.0 + 1e-12)
}

// The weight of the corner across from the side a b, seen from p: none where p lies outside of it.
fn weight_of(p: Pair, a: Pair, b: Pair, denominator: f64) -> Option<f64>
    ensures { result ≡ weight_within p a b denominator }
{
    let w = plane::cross2(plane::sub2(a, p), plane::sub2(b, p)) / denominator;
    if is_within(w) { Some(w) } else { None }
}

// Each weight is tested before the next is computed.
fn weights_of(p: Pair, corners: [Pair; 3], denominator: f64) -> Option<Weights>
    ensures { result ≡ weighed p corners denominator }
{
    let a = corners[0];
    let b = corners[1];
    let c = corners[2];
    let i = weight_of(p, b, c, denominator)?;
    let j = weight_of(p, c, a, denominator)?;
    let k = weight_of(p, a, b, denominator)?;
    Some(Weights { i, j, k })
}

// The weighted sum of the fourfold directions.
fn interpolate(w: Weights, a: f64, b: f64, c: f64) -> Complex
    ensures { result ≡ interpolated w a b c }
{
    let first = Complex::from_angle(4.0 * a).scale(w.i);
    let second = Complex::from_angle(4.0 * b).scale(w.j);
    let third = Complex::from_angle(4.0 * c).scale(w.k);
    first.add(second).add(third)
}

// The angle of a sum that does not vanish.
fn answer(z: Complex) -> Result<Option<f64>, ProbeError>
    ensures { result ≡ answered z }
{
    if z.is_zero() {
        return Err(ProbeError::NoAngle);
    }
    Ok(Some(complex::cross_angle(z)))
}

// The position of point v.
fn position(points: &[f64], v: usize) -> Pair
    requires { 3 * v + 2 < length points.now }
    ensures { result ≡ corner_at points.now v }
{
    Pair {
        x: points[3 * v],
        y: points[3 * v + 1],
    }
}

// What a triangle with these corners and angles says of the question point: an angle, or none where the point lies outside; where the sum vanishes, the
// search ends.
fn visit_corners(
    at: Pair,
    corners: [Pair; 3],
    a: f64,
    b: f64,
    c: f64,
) -> Result<Option<f64>, ProbeError>
    ensures { result ≡ visited_by at corners a b c }
{
    let denominator = plane::twice_signed_area(corners);
    if !is_usable(denominator) {
        return Ok(None);
    }
    let Some(w) = weights_of(at, corners, denominator) else {
        return Ok(None);
    };
    answer(interpolate(w, a, b, c))
}

fn visit_points(
    alpha: &[f64],
    points: &[f64],
    at: Pair,
    i: usize,
    j: usize,
    k: usize,
) -> Result<Option<f64>, ProbeError>
    requires { 3 * length alpha.now ≤ length points.now }
    ensures { result ≡ visit_of alpha.now points.now at i j k }
{
    if i < alpha.len() && j < alpha.len() && k < alpha.len() {
        let corners = [
            position(points, i),
            position(points, j),
            position(points, k),
        ];
        return visit_corners(at, corners, alpha[i], alpha[j], alpha[k]);
    }
    Ok(None)
}

fn visit_triangle(
    alpha: &[f64],
    points: &[f64],
    tris: &[u32],
    at: Pair,
    t: usize,
) -> Result<Option<f64>, ProbeError>
    requires { (3 * length alpha.now ≤ length points.now) × (3 * t + 2 < length tris.now) }
    ensures { result ≡ visit_at alpha.now points.now tris.now at t }
{
    let c = mesh::corners(tris, 3 * t);
    let i = mesh::index(c.a);
    let j = mesh::index(c.b);
    let k = mesh::index(c.c);
    visit_points(alpha, points, at, i, j, k)
}

// The first angle that a triangle gives.
fn search(
    alpha: &[f64],
    points: &[f64],
    tris: &[u32],
    at: Pair,
    triangles: usize,
) -> Result<f64, ProbeError>
    requires { (3 * length alpha.now ≤ length points.now) × (3 * triangles ≤ length tris.now) }
    ensures { result ≡ found_from (visit_at alpha.now points.now tris.now at) 0 triangles }
{
    for t in 0..triangles {
        if let Some(angle) = visit_triangle(alpha, points, tris, at, t)? {
            return Ok(angle);
        }
    }
    Err(ProbeError::NoAngle)
}

// Whether an angle is finite and not too large.
fn is_taken(angle: f64) -> bool
    ensures { result ≡ taken angle }
{
    angle <= complex::LARGEST_ANGLE && angle >= -complex::LARGEST_ANGLE
}

// The question point (x, y) is taken as given: a NaN passes every weight test, and yields 0 where a triangle gets as far.
pub fn interp_angle(
    alpha: &[f64],
    points: &[f64],
    tris: &[u32],
    x: f64,
    y: f64,
) -> Result<f64, ProbeError>
    ensures value { result ≡ probe_of alpha.now points.now tris.now (record { x = x; y = y }) }
    ensures range { AngleRange result }
{
    if points.len() % 3 != 0 || tris.len() % 3 != 0 {
        return Err(ProbeError::NotTriples);
    }
    if alpha.len() != points.len() / 3 {
        return Err(ProbeError::NoAngle);
    }
    if alpha.iter().all(|angle| is_taken(*angle)) {
        return search(alpha, points, tris, Pair { x, y }, tris.len() / 3);
    }
    if alpha.iter().all(|angle| float::is_finite(*angle)) {
        return Err(ProbeError::TooLarge);
    }
    Err(ProbeError::NoAngle)
}
