// The size gradient at each point of a pass: area-weighted sums over the triangles at it, in the work slice, divided by their weights.
// specs/Gradients.antt says what they are.
#![tactic(auto)]

ghost use Rattle.std.specs.Prelude.{◌≡◌, ◌+◌, ◌*◌, ◌<◌, ◌≤◌, length};
ghost use Rattle.mesh.specs.Mesh.{tri};
ghost use Rattle.edges.specs.Numbering.{Below};
ghost use Rattle.pass_geometries.specs.Work.{Cornered};
ghost use Rattle.pass_gradients.specs.Gradients.{not_finite, row_of, point_verdict};
ghost use Rattle.pass_gradients.specs.Work.{gradient_in, GradientsRoom, add_at, add_three, add_triangle, GatheredTriangle, GatheredTo, divide_at, DividedPoint, Divided};

use plane::Pair;
use refusals::{Refusal, refused};

// How many points and triangles there are, and where: in the f64 work the points' coordinates and sizes and the triangles' areas, and the sums, n first
// parts, then n second parts, then n weights; in the u32 work the corners, counter-clockwise.
#[derive(Clone, Copy)]
pub struct GradientsPlan {
    pub points: usize,
    pub triangles: usize,
    pub x: usize,
    pub y: usize,
    pub sizes: usize,
    pub areas: usize,
    pub gradients: usize,
    pub wound: usize,
}

fn add_at(work: &mut [f64], at: usize, x: f64)
    requires { at < length work.old }
    ensures { work.new ≡ add_at work.old at x }
{
    work[at] = work[at] + x;
}

// Adds to the three sums of point v.
fn add_three(work: &mut [f64], sums: usize, n: usize, v: usize, x: f64, y: f64, a: f64)
    requires { (v < n) × (sums + 3 * n ≤ length work.old) }
    ensures { work.new ≡ add_three sums n v x y a work.old }
{
    add_at(work, sums + v, x);
    add_at(work, sums + n + v, y);
    add_at(work, sums + 2 * n + v, a);
}

// Adds to the sums of the three corners i, j and k.
fn add_triangle(
    work: &mut [f64],
    p: GradientsPlan,
    i: usize,
    j: usize,
    k: usize,
    x: f64,
    y: f64,
    a: f64,
)
    requires { Cornered p.points (tri i j k) × (p.gradients + 3 * p.points ≤ length work.old) }
    ensures { work.new ≡ add_triangle p.gradients p.points (tri i j k) x y a work.old }
{
    add_three(work, p.gradients, p.points, i, x, y, a);
    add_three(work, p.gradients, p.points, j, x, y, a);
    add_three(work, p.gradients, p.points, k, x, y, a);
}

// The gradient of the sizes over the triangle i j k of the area a.
fn gradient_of(work: &[f64], p: GradientsPlan, i: usize, j: usize, k: usize, a: f64) -> Pair
    requires points_in_bounds { (p.x + p.points ≤ length work.now) × (p.y + p.points ≤ length work.now) × (p.sizes + p.points ≤ length work.now) }
    requires cornered { Cornered p.points (tri i j k) }
    ensures { result ≡ gradient_in p work.now (tri i j k) a }
{
    let sizes = [work[p.sizes + i], work[p.sizes + j], work[p.sizes + k]];
    let b = pass_geometries::position(work, p.x, p.y, i);
    let c = pass_geometries::position(work, p.x, p.y, j);
    let d = pass_geometries::position(work, p.x, p.y, k);
    geometry::triangle_gradient([b, c, d], sizes, a)
}

// Adds triangle t's gradient, weighed by its area, at its corners.
fn gather_triangle(work: &mut [f64], words: &[u32], p: GradientsPlan, t: usize)
    requires gradients_room { GradientsRoom p (length work.old) (length words.now) × (t < p.triangles) }
    requires below { Below p.points p.wound words.now (3 * p.triangles) }
    ensures { GatheredTriangle p t words.now work.old work.new }
{
    let c = mesh::corners(words, p.wound + 3 * t);
    let i = mesh::index(c.a);
    let j = mesh::index(c.b);
    let k = mesh::index(c.c);
    let area = work[p.areas + t];
    let d = gradient_of(work, p, i, j, k, area);
    add_triangle(work, p, i, j, k, area * d.x, area * d.y, area);
}

// Gathers all triangles, over sums of 0.
fn gather_all(work: &mut [f64], words: &[u32], p: GradientsPlan)
    requires gradients_room { GradientsRoom p (length work.old) (length words.now) }
    requires below { Below p.points p.wound words.now (3 * p.triangles) × GatheredTo p 0 words.now work.old work.old }
    ensures { GatheredTo p p.triangles words.now work.old work.new }
{
    for t in 0..p.triangles {
        gather_triangle(work, words, p, t);
    }
}

// Gathers the gradients and areas of the triangles at their corners.
pub fn gather(work: &mut [f64], words: &[u32], p: GradientsPlan)
    requires gradients_room { GradientsRoom p (length work.old) (length words.now) }
    requires below { Below p.points p.wound words.now (3 * p.triangles) }
    ensures { GatheredTo p p.triangles words.now work.old work.new }
{
    linear_cells::fill(work, p.gradients, 3 * p.points, 0.0);
    gather_all(work, words, p);
}

fn not_finite(x: f64, y: f64) -> bool
    ensures { result ≡ not_finite x y }
{
    !float::is_finite(x) || !float::is_finite(y)
}

// Rows 20 and 21, of point v with these sums and weight.
fn check_point(x: f64, y: f64, weight: f64, v: usize) -> Result<(), Refusal>
    ensures { result ≡ point_verdict (row_of x y weight) v }
{
    if float::not_positive(weight) {
        return Err(refused(20, v));
    }
    if not_finite(x / weight, y / weight) {
        return Err(refused(21, v));
    }
    Ok(())
}

// Divides point v's sums by its weight.
fn divide_at(work: &mut [f64], sums: usize, n: usize, v: usize)
    requires { (v < n) × (sums + 3 * n ≤ length work.old) }
    ensures { work.new ≡ divide_at sums n v work.old }
{
    let weight = work[sums + 2 * n + v];
    let x = work[sums + v] / weight;
    let y = work[sums + n + v] / weight;
    work[sums + v] = x;
    work[sums + n + v] = y;
}

// Point v: its means, or the row that refuses it.
fn divide_point(work: &mut [f64], sums: usize, n: usize, v: usize) -> Result<(), Refusal>
    requires { (v < n) × (sums + 3 * n ≤ length work.old) }
    ensures { DividedPoint sums n v work.old work.new result }
{
    check_point(
        work[sums + v],
        work[sums + n + v],
        work[sums + 2 * n + v],
        v,
    )?;
    divide_at(work, sums, n, v);
    Ok(())
}

// Divides the sums of n points by their weights, up to the first point that row 20 or 21 refuses.
pub fn divide(work: &mut [f64], sums: usize, n: usize) -> Result<(), Refusal>
    requires { sums + 3 * n ≤ length work.old }
    ensures { Divided sums n work.old work.new result }
{
    for v in 0..n {
        divide_point(work, sums, n, v)?;
    }
    Ok(())
}
