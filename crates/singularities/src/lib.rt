// The singular triangles of a cross field: where the fourfold direction winds around zero along a triangle's sides,
// quads meet in threes (charge above 0) or in fives (below 0).
#![tactic(auto)]

ghost use Rattle.std.specs.Prelude.{◌≡◌, ◌*◌, ◌+◌, ◌<◌, ◌≤◌, nat_abs, length};
ghost use Rattle.singularities.specs.Charge.{winding, charge};
ghost use Rattle.singularities.specs.Count.{charge_of, charge_at, counted, count_of, singularities};

// The sum of the wrapped turns along the three sides.
fn winding_of(a: f64, b: f64, c: f64) -> f64
    ensures { result ≡ winding a b c }
{
    let ab = complex::wrap_to_pi(4.0 * (b - a));
    let bc = complex::wrap_to_pi(4.0 * (c - b));
    let ca = complex::wrap_to_pi(4.0 * (a - c));
    ab + bc + ca
}

// The charge of a triangle with the angles a, b and c at its corners: one of -2 .. 2.
pub fn triangle_charge(a: f64, b: f64, c: f64) -> i64
    ensures value { result ≡ charge a b c }
    ensures small { nat_abs result ≤ 2 }
{
    if float::is_finite(a) && float::is_finite(b) && float::is_finite(c) {
        return float::whole_signed(float::round(winding_of(a, b, c) / float::TAU));
    }
    0
}

// The charge of the corners i, j, k: 0 where one of them has no angle, or one that is not finite.
fn charge_of(alpha: &[f64], i: usize, j: usize, k: usize) -> i64
    ensures { result ≡ charge_of alpha.now i j k }
{
    if i < alpha.len() && j < alpha.len() && k < alpha.len() {
        return triangle_charge(alpha[i], alpha[j], alpha[k]);
    }
    0
}

// The charge of triangle t.
pub fn charge_at(alpha: &[f64], tris: &[u32], t: usize) -> i64
    requires { 3 * t + 2 < length tris.now }
    ensures { result ≡ charge_at alpha.now tris.now t }
{
    let c = mesh::corners(tris, 3 * t);
    let i = mesh::index(c.a);
    let j = mesh::index(c.b);
    let k = mesh::index(c.c);
    charge_of(alpha, i, j, k)
}

// How many triangles have a charge above 0, and how many below.
#[derive(Clone, Copy)]
pub struct Counts {
    pub valence_3: usize,
    pub valence_5: usize,
}

// Refusal 1: the triangle slice is not of whole triples.
#[derive(Clone, Copy, Debug, PartialEq, Eq)]
pub struct NotTriples;

// The counts with one more triangle's charge added.
fn add_charge(counts: Counts, charge: i64) -> Counts
    requires { (counts.valence_3 < 0x7fff_ffff_ffff_ffff) × (counts.valence_5 < 0x7fff_ffff_ffff_ffff) }
    ensures { result ≡ counted counts charge }
{
    if charge > 0 {
        return Counts {
            valence_3: counts.valence_3 + 1,
            ..counts
        };
    }
    if charge < 0 {
        return Counts {
            valence_5: counts.valence_5 + 1,
            ..counts
        };
    }
    counts
}

fn count_triangles(alpha: &[f64], tris: &[u32], triangles: usize) -> Counts
    requires { 3 * triangles ≤ length tris.now }
    ensures { result ≡ count_of alpha.now tris.now triangles }
{
    let mut counts = Counts {
        valence_3: 0,
        valence_5: 0,
    };
    for t in 0..triangles {
        counts = add_charge(counts, charge_at(alpha, tris, t));
    }
    counts
}

// Triangles with a corner out of range, or an angle that is not finite, are passed over.
pub fn count_singularities(alpha: &[f64], tris: &[u32]) -> Result<Counts, NotTriples>
    ensures { result ≡ singularities alpha.now tris.now }
{
    if tris.len() % 3 != 0 {
        return Err(NotTriples);
    }
    Ok(count_triangles(alpha, tris, tris.len() / 3))
}
