// The boundary of a floor: which sides lie in exactly one triangle, and for each point on them the direction that the field is to have there.
// The Rust's boundary_targets (lines 854 to 914): specs/Boundary.antt says what is made of the triangles, specs/Work.antt where it stands.
#![tactic(auto)]

ghost use Rattle.std.specs.Prelude.{◌≡◌, cond, [], ◌∷◌, ◌+◌, ◌*◌, ◌<◌, ◌≤◌, eqb, length, get_or};
ghost use Rattle.mesh.specs.Mesh.{side, key};
ghost use Rattle.edges.specs.Table.{Held};
ghost use Rattle.edges.specs.Numbering.{tri_from};
ghost use Rattle.pass_boundary.specs.Boundary.{around, walked, once, is_inner, side_tangent, mark, normalised};
ghost use Rattle.pass_boundary.specs.Work.{xs_in, ys_in, first_in, tris_in, table_of, ListRoom, PlaneRoom, In, Sided, Numbers, Counts, Added, Marked, settled_at, counted, settle_c, settled_in, cleared, Bounded};

use complex::Complex;
use linear_cells::{load, load_real, store};

// Where the u32 work holds the triangles as given, the table of their sides (crate edges), and for each triangle the numbers of its sides; and
// where a count for each side and a flag for each point go.
#[derive(Clone, Copy)]
pub struct Listing {
    pub triangles: usize,
    pub sides: usize,
    pub buckets: usize,
    pub corners: usize,
    pub numbers: usize,
    pub table: usize,
    pub counts: usize,
    pub flags: usize,
}

// Where the f64 work holds the coordinates of the points, and where their targets and the first values at them go.
#[derive(Clone, Copy)]
pub struct Planes {
    pub points: usize,
    pub x: usize,
    pub y: usize,
    pub targets: usize,
    pub first: usize,
}

// Whether the side of a and b lies in exactly one triangle.
fn is_boundary(u: &[u32], l: Listing, a: u32, b: u32) -> bool
    requires held { Held l.table l.buckets u.now l.sides × (Counts l u.now × (In (key a b) (table_of l u.now))) }
    requires sides_in_bounds { l.counts + l.sides ≤ length u.now }
    ensures { result ≡ once (tris_in l u.now) (side a b) }
{
    let t = edges::Table {
        base: l.table,
        buckets: l.buckets,
        sides: l.sides,
    };
    let number = edges::find_side(u, t, a, b).unwrap();
    u[l.counts + number] == 1
}

// The fourfold direction of the side from a to b.
fn direction(w: &[f64], p: Planes, a: usize, b: usize) -> Complex
    requires { PlaneRoom p (length w.now) × ((a < p.points) × (b < p.points)) }
    ensures { result ≡ side_tangent (xs_in p w.now) (ys_in p w.now) (side a b) }
{
    let dy = load_real(w, p.y, b) - load_real(w, p.y, a);
    let dx = load_real(w, p.x, b) - load_real(w, p.x, a);
    complex::guidance::fourfold_direction(arctangent::atan2(dy, dx))
}

// The first value at point v, where z is added now.
fn first_of(w: &[f64], u: &[u32], flags: usize, p: Planes, v: usize, z: Complex) -> Complex
    requires { PlaneRoom p (length w.now) × ((v < p.points) × (flags + v < length u.now)) }
    ensures { result ≡ cond (eqb (get_or u.now (flags + v) 0) 0) z (first_in p w.now v) }
{
    if u[flags + v] == 0 {
        return z;
    }
    load(w, p.first, p.points, v)
}

// Adds z at point v.
fn add_mark(w: &mut [f64], u: &mut [u32], flags: usize, p: Planes, v: usize, z: Complex)
    requires { PlaneRoom p (length w.old) × ((v < p.points) × (flags + p.points ≤ length u.old)) }
    ensures { Added flags p (mark v z ∷ []) u.old w.old u.new w.new }
{
    let first = first_of(w, u, flags, p, v, z);
    let sum = load(w, p.targets, p.points, v).add(z);
    store(w, p.targets, p.points, v, sum);
    store(w, p.first, p.points, v, first);
    u[flags + v] = 1;
}

// Adds the direction of the side from a to b at both ends, a first, if it lies on the boundary. 1 if it does.
fn mark_side(w: &mut [f64], u: &mut [u32], l: Listing, p: Planes, a: u32, b: u32) -> usize
    requires list_room { ListRoom l p.points (length u.old) × PlaneRoom p (length w.old) }
    requires sided { Sided l p.points u.old × (Counts l u.old × (In (key a b) (table_of l u.old))) }
    requires a_lt_points { (a < p.points) × (b < p.points) }
    ensures { Marked l p (side a b ∷ []) u.old w.old u.new w.new result }
{
    if is_boundary(u, l, a, b) {
        let i = mesh::index(a);
        let j = mesh::index(b);
        let z = direction(w, p, i, j);
        add_mark(w, u, l.flags, p, i, z);
        add_mark(w, u, l.flags, p, j, z);
        return 1;
    }
    0
}

// Whether no side of triangle i lies on the boundary, by the three numbers that are kept for it, in whatever order: so that its sides need not be sought.
fn is_inner(u: &[u32], l: Listing, n: usize, i: usize) -> bool
    requires { ListRoom l n (length u.now) × (Sided l n u.now × (Counts l u.now × (i < l.triangles))) }
    ensures { result ≡ is_inner (tris_in l u.now) (tri_from l.corners u.now i) }
{
    let c = mesh::corners(u, l.numbers + 3 * i);
    if u[l.counts + mesh::index(c.a)] == 1 {
        return false;
    }
    if u[l.counts + mesh::index(c.b)] == 1 {
        return false;
    }
    u[l.counts + mesh::index(c.c)] != 1
}

// The three sides of triangle i. How many lie on the boundary.
fn mark_triangle(w: &mut [f64], u: &mut [u32], l: Listing, p: Planes, i: usize) -> usize
    requires list_room { ListRoom l p.points (length u.old) × PlaneRoom p (length w.old) }
    requires sided { Sided l p.points u.old × (Counts l u.old × (i < l.triangles)) }
    ensures { Marked l p (around (tri_from l.corners u.old i)) u.old w.old u.new w.new result }
{
    if is_inner(u, l, p.points, i) {
        return 0;
    }
    let c = mesh::corners(u, l.corners + 3 * i);
    let ab = mark_side(w, u, l, p, c.a, c.b);
    let bc = mark_side(w, u, l, p, c.b, c.c);
    let ca = mark_side(w, u, l, p, c.c, c.a);
    ab + bc + ca
}

// Every triangle in order. How many sides lie on the boundary.
fn mark_all(w: &mut [f64], u: &mut [u32], l: Listing, p: Planes) -> usize
    requires list_room { ListRoom l p.points (length u.old) × PlaneRoom p (length w.old) }
    requires sided { Sided l p.points u.old × Counts l u.old }
    ensures { Marked l p (walked (tris_in l u.old)) u.old w.old u.new w.new result }
{
    let mut count = 0;
    for i in 0..l.triangles {
        count += mark_triangle(w, u, l, p, i);
    }
    count
}

// The sum divided by its norm, or the first value where the norm is not finite or not above 1e-12.
fn normal(sum: Complex, first: Complex) -> Complex
    ensures { result ≡ normalised sum first }
{
    let norm = complex::guidance::norm(sum);
    if float::is_finite(norm) {
        if norm > 1e-12 {
            return sum.scale(float::recip(norm));
        }
        return first;
    }
    first
}

// The target at a point.
fn settle_one(flag: u32, first: Complex, sum: Complex) -> Complex
    ensures { result ≡ settled_at flag first sum }
{
    if flag == 1 {
        return normal(sum, first);
    }
    Complex::ZERO
}

fn settle_at(w: &mut [f64], u: &[u32], flags: usize, p: Planes, v: usize)
    requires { PlaneRoom p (length w.old) × ((v < p.points) × (flags + v < length u.now)) }
    ensures { w.new ≡ settle_c p flags u.now v w.old }
{
    let first = load(w, p.first, p.points, v);
    let sum = load(w, p.targets, p.points, v);
    let z = settle_one(u[flags + v], first, sum);
    store(w, p.targets, p.points, v, z);
}

// The sums become targets.
fn settle(w: &mut [f64], u: &[u32], flags: usize, p: Planes)
    requires { PlaneRoom p (length w.old) × (flags + p.points ≤ length u.now) }
    ensures { w.new ≡ settled_in p flags u.now w.old }
{
    for v in 0..p.points {
        settle_at(w, u, flags, p, v);
    }
}

// Counts how often each side is listed, and takes all flags away.
fn count_sides(u: &mut [u32], l: Listing, n: usize)
    requires { ListRoom l n (length u.old) × Numbers l u.old }
    ensures { u.new ≡ counted l n u.old }
{
    edges::numbers::count_numbers(u, l.numbers, 3 * l.triangles, l.counts, l.sides);
    slices::fill(u, l.flags, n, 0);
}

// Sums of 0, and first values of 1.
fn clear(w: &mut [f64], p: Planes)
    requires { PlaneRoom p (length w.old) }
    ensures { w.new ≡ cleared p w.old }
{
    linear_cells::fill(w, p.targets, 2 * p.points, 0.0);
    linear_cells::fill(w, p.first, p.points, 1.0);
    linear_cells::fill(w, p.first + p.points, p.points, 0.0);
}

// The flags and the targets of the points on the boundary. How many sides lie on it: where none does, row 23 refuses.
pub fn boundary_targets(w: &mut [f64], u: &mut [u32], l: Listing, p: Planes) -> usize
    requires list_room { ListRoom l p.points (length u.old) × PlaneRoom p (length w.old) }
    requires sided { Sided l p.points u.old × Numbers l u.old }
    ensures { Bounded l p u.old w.old u.new w.new result }
{
    count_sides(u, l, p.points);
    clear(w, p);
    let sides = mark_all(w, u, l, p);
    settle(w, u, l.flags, p);
    sides
}
