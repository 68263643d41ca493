// The mass and the energy matrix of a pass, summed over its triangles in regions of the work slice. specs/Assembly.antt says what the sums are, and
// specs/Work.antt how the slices hold them.
#![tactic(auto)]

pub mod shift;

ghost use Rattle.std.specs.Prelude.{◌≡◌, ◌+◌, ◌*◌, ◌<◌, ◌≤◌, length};
ghost use Rattle.std.specs.Float.{nan};
ghost use Rattle.float.specs.Double.{◌⊕◌};
ghost use Rattle.complex.specs.Complex.{cnan, cadd};
ghost use Rattle.linear_cells.specs.Region.{region, put};
ghost use Rattle.linear_cells.specs.Cell.{get_c, region_c, put_c};
ghost use Rattle.pass_assembly.specs.Assembly.{toward_upper, directed_sides, directed_part, directed_terms, transports_on};
ghost use Rattle.pass_assembly.specs.Work.{triple_from, terms_from, assembled_to, AssemblyRoom, Indexed, Within, MatrixIn, AddRoom, TermsIn};
ghost use Rattle.pass_assembly.specs.Work.{add_in, corners_added, sides_added, correction_added, part_added, added, triangle_added, cleared, read, lay};

use complex::Complex;
use linear_cells::{load, load_real, store, store_real};
use linear_hermitian::Hermitian;
use pass_terms::{Corners, Mode, Part, Sides, Terms};

// Where a floor stands: in the one slice the coordinates of its points, the areas of its triangles and the transports along its sides; in the other the
// corners of its triangles, counter-clockwise, and the numbers of their sides.
#[derive(Clone, Copy)]
pub struct AssemblyPlan {
    pub x: usize,
    pub y: usize,
    pub areas: usize,
    pub transports: usize,
    pub corners: usize,
    pub numbers: usize,
    pub triangles: usize,
}

// Three numbers of points, or of sides.
#[derive(Clone, Copy)]
struct Triple {
    i: usize,
    j: usize,
    k: usize,
}

fn triple_at(u: &[u32], base: usize, t: usize) -> Triple
    requires { base + 3 * t + 3 ≤ length u.now }
    ensures { result ≡ triple_from base u.now t }
{
    let c = mesh::corners(u, base + 3 * t);
    Triple {
        i: mesh::index(c.a),
        j: mesh::index(c.b),
        k: mesh::index(c.c),
    }
}

// A value along the side from i to j, as the value from its lower to its upper end, or back.
fn directed_to(i: usize, j: usize, z: Complex) -> Complex
    ensures { result ≡ toward_upper i j z }
{
    if i < j {
        return z;
    }
    z.conj()
}

fn directed_sides(c: Triple, z: Sides) -> Sides
    ensures { result ≡ directed_sides c z }
{
    Sides {
        ij: directed_to(c.i, c.j, z.ij),
        jk: directed_to(c.j, c.k, z.jk),
        ki: directed_to(c.k, c.i, z.ki),
    }
}

fn directed_part(c: Triple, p: Part) -> Part
    ensures { result ≡ directed_part c p }
{
    let corners = p.corners;
    Part {
        corners,
        sides: directed_sides(c, p.sides),
    }
}

fn directed_terms(c: Triple, z: Terms) -> Terms
    ensures { result ≡ directed_terms c z }
{
    Terms {
        mass: directed_part(c, z.mass),
        energy: directed_part(c, z.energy),
        correction: z.correction,
    }
}

// The transports along the sides s of the triangle with the corners c; there are e sides.
fn transports_on(w: &[f64], base: usize, e: usize, c: Triple, s: Triple) -> Sides
    requires { Within e s × (base + 2 * e ≤ length w.now) }
    ensures { result ≡ transports_on (get_c w.now base e) c s }
{
    let z = Sides {
        ij: load(w, base, e, s.i),
        jk: load(w, base, e, s.j),
        ki: load(w, base, e, s.k),
    };
    directed_sides(c, z)
}

// What triangle t, of the corners c and the sides s, adds; the matrices are as large as h.
fn terms_at(
    w: &[f64],
    l: AssemblyPlan,
    m: Mode,
    h: Hermitian,
    c: Triple,
    s: Triple,
    t: usize,
) -> Terms
    requires terms_in { TermsIn (length w.now) l h.size h.edges t }
    requires within { Within h.size c × Within h.edges s }
    ensures { result ≡ terms_from m w.now l h.edges c s t }
{
    let p = pass_geometries::position(w, l.x, l.y, c.i);
    let q = pass_geometries::position(w, l.x, l.y, c.j);
    let r = pass_geometries::position(w, l.x, l.y, c.k);
    let z = transports_on(w, l.transports, h.edges, c, s);
    let area = load_real(w, l.areas, t);
    directed_terms(c, pass_terms::of_triangle(m, area, z, [p, q, r]))
}

fn add_real(w: &mut [f64], base: usize, n: usize, i: usize, x: f64)
    requires { (i < n) × (base + n ≤ length w.old) }
    ensures { w.new ≡ put w.old base (add_in ◌⊕◌ nan (region nan w.old base n) i x) }
{
    let sum = load_real(w, base, i) + x;
    store_real(w, base, i, sum);
}

fn add_cell(w: &mut [f64], base: usize, n: usize, i: usize, z: Complex)
    requires { (i < n) × (base + 2 * n ≤ length w.old) }
    ensures { w.new ≡ put_c w.old base (add_in cadd cnan (region_c w.old base n) i z) }
{
    let sum = load(w, base, n, i).add(z);
    store(w, base, n, i, sum);
}

fn add_corners(w: &mut [f64], base: usize, n: usize, c: Triple, d: Corners)
    requires { Within n c × (base + n ≤ length w.old) }
    ensures { w.new ≡ put w.old base (corners_added c d (region nan w.old base n)) }
{
    add_real(w, base, n, c.i, d.i);
    add_real(w, base, n, c.j, d.j);
    add_real(w, base, n, c.k, d.k);
}

fn add_sides(w: &mut [f64], base: usize, n: usize, s: Triple, z: Sides)
    requires { Within n s × (base + 2 * n ≤ length w.old) }
    ensures { w.new ≡ put_c w.old base (sides_added s z (region_c w.old base n)) }
{
    add_cell(w, base, n, s.i, z.ij);
    add_cell(w, base, n, s.j, z.jk);
    add_cell(w, base, n, s.k, z.ki);
}

// Adds a triangle's part to the matrix at h.
fn add_part(w: &mut [f64], h: Hermitian, c: Triple, s: Triple, p: Part)
    requires { Within h.size c × Within h.edges s × MatrixIn (length w.old) h }
    ensures { w.new ≡ part_added h c s p w.old }
{
    add_corners(w, h.diagonal, h.size, c, p.corners);
    add_sides(w, h.off, h.edges, s, p.sides);
}

// Adds the correction x at each corner, where the holomorphic weight is not 0.
fn add_correction(w: &mut [f64], base: usize, n: usize, c: Triple, weight: f64, x: f64)
    requires { Within n c × (base + n ≤ length w.old) }
    ensures { w.new ≡ put w.old base (correction_added weight c x (region nan w.old base n)) }
{
    if weight == 0.0 {
        return;
    }
    add_corners(w, base, n, c, Corners { i: x, j: x, k: x });
}

// Adds a triangle's terms to both matrices.
fn add_terms(
    w: &mut [f64],
    mass: Hermitian,
    energy: Hermitian,
    c: Triple,
    s: Triple,
    weight: f64,
    z: Terms,
)
    requires add_room { AddRoom (length w.old) mass energy }
    requires within { Within mass.size c × Within mass.edges s }
    ensures { w.new ≡ lay w.old mass energy (added weight c s z (read w.old mass energy)) }
{
    add_part(w, mass, c, s, z.mass);
    add_part(w, energy, c, s, z.energy);
    add_correction(w, energy.diagonal, energy.size, c, weight, z.correction);
}

// Adds triangle t to both matrices.
fn add_triangle(
    w: &mut [f64],
    u: &[u32],
    l: AssemblyPlan,
    mass: Hermitian,
    energy: Hermitian,
    m: Mode,
    t: usize,
)
    requires assembly_room { AssemblyRoom (length w.old) (length u.now) l mass energy × (t < l.triangles) }
    requires indexed { Indexed u.now l mass.size mass.edges }
    ensures { w.new ≡ triangle_added m u.now l mass energy t w.old }
{
    let c = triple_at(u, l.corners, t);
    let s = triple_at(u, l.numbers, t);
    let z = terms_at(w, l, m, mass, c, s, t);
    add_terms(w, mass, energy, c, s, m.holomorphic, z);
}

// Adds every triangle to both matrices, over zeros.
fn add_triangles(
    w: &mut [f64],
    u: &[u32],
    l: AssemblyPlan,
    mass: Hermitian,
    energy: Hermitian,
    m: Mode,
)
    requires assembly_room { AssemblyRoom (length w.old) (length u.now) l mass energy }
    requires indexed { Indexed u.now l mass.size mass.edges × (w.old ≡ assembled_to m w.old u.now l mass energy 0) }
    ensures { w.new ≡ assembled_to m w.old u.now l mass energy l.triangles }
{
    for t in 0..l.triangles {
        add_triangle(w, u, l, mass, energy, m, t);
    }
}

// A matrix of zeros.
fn clear(w: &mut [f64], h: Hermitian)
    requires { MatrixIn (length w.old) h }
    ensures { w.new ≡ cleared h w.old }
{
    linear_cells::fill(w, h.diagonal, h.size, 0.0);
    linear_cells::fill(w, h.off, 2 * h.edges, 0.0);
}

// The mass and the energy matrix of the floor at l, over what stood there.
pub fn assemble(
    w: &mut [f64],
    u: &[u32],
    l: AssemblyPlan,
    mass: Hermitian,
    energy: Hermitian,
    m: Mode,
)
    requires assembly_room { AssemblyRoom (length w.old) (length u.now) l mass energy }
    requires indexed { Indexed u.now l mass.size mass.edges }
    ensures { w.new ≡ assembled_to m w.old u.now l mass energy l.triangles }
{
    clear(w, mass);
    clear(w, energy);
    add_triangles(w, u, l, mass, energy, m);
}
