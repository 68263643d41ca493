// Where everything that a pass reads and writes stands in its two work slices: a struct of bases, by value. Every region has room for the most edges that
// the triangles can have, three each, so that nothing depends on how many there are. specs/Layout.antt says where each is, and how much room all take.
#![tactic(auto)]

ghost use Rattle.std.specs.Prelude.{◌≡◌, ◌+◌, ◌*◌, ◌^◌, ◌<◌};
ghost use Rattle.pass_layout.specs.Layout.{Small, stride_of, layout_of};
ghost use Rattle.pass_layout.specs.Matrices.{mass_at, energy_at, vectors_at, packing_at, source_at, Countable};

use linear_conjugate_gradient::Vectors;
use linear_hermitian::Hermitian;
use linear_packing::{Packing, Source};

// Where a pass begins in the f64 and in the u32 work, and how many points and triangles its floor has.
#[derive(Clone, Copy)]
pub struct Base {
    pub reals: usize,
    pub words: usize,
    pub points: usize,
    pub triangles: usize,
}

#[derive(Clone, Copy)]
pub struct Layout {
    pub points: usize,
    pub triangles: usize,
    // In the f64 work: the angles that the pass answers; the floor's points, and the guidance at them.
    pub angles: usize,
    pub x: usize,
    pub y: usize,
    pub sizes: usize,
    pub guidance: usize,
    // The triangles' areas, the points' size gradients with their weights, the edges' transports.
    pub areas: usize,
    pub gradients: usize,
    pub transports: usize,
    // The two matrices: a diagonal, and behind it the entries off it.
    pub mass: usize,
    pub mass_off: usize,
    pub energy: usize,
    pub energy_off: usize,
    // The entries of the packed copy of the matrix that the linear solver multiplies by.
    pub packed: usize,
    // The targets on the boundary, and the vectors of the linear solver.
    pub targets: usize,
    pub iterate: usize,
    pub residual: usize,
    pub direction: usize,
    pub applied: usize,
    pub inverse: usize,
    // In the u32 work: the corners of the triangles as given, and counter-clockwise; the numbers of their sides.
    pub given: usize,
    pub wound: usize,
    pub numbers: usize,
    // The table of sides, and how many buckets it has; the lower and the upper ends of the edges.
    pub table: usize,
    pub buckets: usize,
    pub from: usize,
    pub to: usize,
    // In how many triangles each side lies, and which points lie on the boundary.
    pub counts: usize,
    pub flags: usize,
    // The marks of the packed copy. All else of it stands where the table of sides did.
    pub marks: usize,
}

// How many f64 numbers a page of memory holds.
const PAGE: usize = 512;
// How much further on in its page a vector of the linear solver begins than the one before it. Vectors that begin at one place of a page compete for the
// same lines of the first cache; without gaps they would at 128 by 128 points, where each part of a vector fills whole pages.
const APART: usize = 104;

// From where a vector of the linear solver begins to where the next one does. Vectors of less than a page need no gap.
fn stride_of(n: usize) -> usize
    requires { n < 2 ^ 24 }
    ensures { result ≡ stride_of n }
{
    if n < PAGE {
        return 2 * n;
    }
    2 * n + (APART + (PAGE - 2) * n) % PAGE
}

pub fn layout_at(at: Base) -> Layout
    requires { Small at }
    ensures { result ≡ layout_of at }
{
    let b = at.reals;
    let c = at.words;
    let n = at.points;
    let t = at.triangles;
    let buckets = n + 1;
    let behind = c + 21 * t + buckets;
    let vectors = b + 12 * n + 31 * t;
    let stride = stride_of(n);
    Layout {
        points: n,
        triangles: t,
        angles: b,
        x: b + n,
        y: b + 2 * n,
        sizes: b + 3 * n,
        guidance: b + 4 * n,
        areas: b + 5 * n,
        gradients: b + 5 * n + t,
        transports: b + 8 * n + t,
        mass: b + 8 * n + 7 * t,
        mass_off: b + 9 * n + 7 * t,
        energy: b + 9 * n + 13 * t,
        energy_off: b + 10 * n + 13 * t,
        packed: b + 10 * n + 19 * t,
        targets: b + 10 * n + 31 * t,
        iterate: vectors,
        residual: vectors + stride,
        direction: vectors + 2 * stride,
        applied: vectors + 3 * stride,
        inverse: vectors + 4 * stride,
        given: c,
        wound: c + 3 * t,
        numbers: c + 6 * t,
        table: c + 9 * t,
        buckets,
        from: behind,
        to: behind + 3 * t,
        counts: behind + 6 * t,
        flags: behind + 9 * t,
        marks: behind + 9 * t + n,
    }
}

// The mass matrix, with so many edges.
pub fn mass_at(l: Layout, edges: usize) -> Hermitian
    ensures { result ≡ mass_at l edges }
{
    Hermitian {
        size: l.points,
        edges,
        diagonal: l.mass,
        off: l.mass_off,
    }
}

// The energy matrix.
pub fn energy_at(l: Layout, edges: usize) -> Hermitian
    ensures { result ≡ energy_at l edges }
{
    Hermitian {
        size: l.points,
        edges,
        diagonal: l.energy,
        off: l.energy_off,
    }
}

// The vectors of the linear solver.
pub fn vectors_at(l: Layout) -> Vectors
    ensures { result ≡ vectors_at l }
{
    Vectors {
        x: l.iterate,
        residual: l.residual,
        direction: l.direction,
        applied: l.applied,
        inverse: l.inverse,
    }
}

// Where the packed copy of a matrix with so many edges stands.
pub fn packing_at(l: Layout, edges: usize) -> Packing
    requires { Countable l edges }
    ensures { result ≡ packing_at l edges }
{
    Packing {
        size: l.points,
        slots: 2 * edges,
        entries: l.packed,
        starts: l.table,
        neighbours: l.table + (l.points + 1),
        marks: l.marks,
    }
}

// What the packed copy is made from.
pub fn source_at(l: Layout, edges: usize) -> Source
    requires { Countable l edges }
    ensures { result ≡ source_at l edges }
{
    Source {
        edges,
        from: l.from,
        to: l.to,
        halves: l.table + (l.points + 1) + 2 * edges,
    }
}
