// The geometry of every triangle of a pass: corners put counter-clockwise and areas, kept in the work slices, up to the first triangle that is
// degenerate, which is refusal 19. specs/Geometries.antt says what is kept.
#![tactic(auto)]

ghost use Rattle.std.specs.Prelude.{◌≡◌, [], ◌∷◌, ◌+◌, ◌*◌, ◌<◌, ◌≤◌, ◌^◌, length, is_ok, IfErr};
ghost use Rattle.std.proofs.lemmas.List.Edits.{sets};
ghost use Rattle.edges.specs.Numbering.{Below};
ghost use Rattle.mesh.specs.Mesh.{tri};
ghost use Rattle.geometry.specs.Triangle.{at};
ghost use Rattle.pass_geometries.specs.Geometries.{geometry_on};
ghost use Rattle.pass_geometries.specs.Work.{coords_from, xs_in, ys_in, geometry_in, Cornered, GeometriesRoom, Looked, reached, Kept};

use geometry::{Degenerate, TriangleGeometry};
use plane::Pair;

// How many points and triangles there are, and where: in the f64 work the coordinates, and the areas that are kept; in the u32 work the corners as
// given, and those that are kept.
#[derive(Clone, Copy)]
pub struct GeometriesPlan {
    pub points: usize,
    pub triangles: usize,
    pub x: usize,
    pub y: usize,
    pub areas: usize,
    pub given: usize,
    pub wound: usize,
}

// Point v.
pub fn position(work: &[f64], x: usize, y: usize, v: usize) -> Pair
    requires { (x + v < length work.now) × (y + v < length work.now) }
    ensures { result ≡ at (coords_from work.now x) (coords_from work.now y) v }
{
    Pair {
        x: work[x + v],
        y: work[y + v],
    }
}

// Triangle t, of the corners i, j and k.
fn geometry_of(
    work: &[f64],
    p: GeometriesPlan,
    i: usize,
    j: usize,
    k: usize,
    t: usize,
) -> Result<TriangleGeometry, Degenerate>
    requires points_in_bounds { (p.x + p.points ≤ length work.now) × (p.y + p.points ≤ length work.now) }
    requires cornered { Cornered p.points (tri i j k) }
    ensures { result ≡ geometry_on (xs_in p work.now) (ys_in p work.now) (tri i j k) t }
{
    let a = position(work, p.x, p.y, i);
    let b = position(work, p.x, p.y, j);
    let c = position(work, p.x, p.y, k);
    geometry::triangle_geometry([i, j, k], [a, b, c], t)
}

// Triangle t as given.
fn geometry_at(
    work: &[f64],
    words: &[u32],
    p: GeometriesPlan,
    t: usize,
) -> Result<TriangleGeometry, Degenerate>
    requires geometries_room { GeometriesRoom p (length work.now) (length words.now) × (t < p.triangles) }
    requires below { Below p.points p.given words.now (3 * p.triangles) }
    ensures { result ≡ geometry_in p work.now words.now t }
{
    let c = mesh::corners(words, p.given + 3 * t);
    let i = mesh::index(c.a);
    let j = mesh::index(c.b);
    let k = mesh::index(c.c);
    geometry_of(work, p, i, j, k, t)
}

// Keeps the area and the corners of triangle t.
fn keep(work: &mut [f64], words: &mut [u32], p: GeometriesPlan, t: usize, g: TriangleGeometry)
    requires geometries_room { GeometriesRoom p (length work.old) (length words.old) × (t < p.triangles) }
    requires cornered { Cornered (2 ^ 32) (tri g.i g.j g.k) }
    ensures work_after { work.new ≡ sets work.old (p.areas + t) (g.area ∷ []) }
    ensures words_after { words.new ≡ sets words.old (p.wound + 3 * t) (g.i ∷ g.j ∷ g.k ∷ []) }
{
    edges::numbers::put_three(words, p.wound + 3 * t, g.i as u32, g.j as u32, g.k as u32);
    work[p.areas + t] = g.area;
}

// Looks at triangle t: its geometry is kept, where it has one.
fn look(work: &mut [f64], words: &mut [u32], p: GeometriesPlan, t: usize) -> Result<(), Degenerate>
    requires geometries_room { GeometriesRoom p (length work.old) (length words.old) × (t < p.triangles) }
    requires below { Below p.points p.given words.old (3 * p.triangles) }
    ensures looked { Looked p t work.old words.old work.new words.new (is_ok result) }
    ensures place { IfErr result (λ e. e.triangle ≡ t) }
{
    let g = geometry_at(work, words, p, t)?;
    keep(work, words, p, t, g);
    Ok(())
}

// Keeps the geometry of the triangles before the first degenerate one, which is the error.
pub fn geometries(work: &mut [f64], words: &mut [u32], p: GeometriesPlan) -> Result<(), Degenerate>
    requires geometries_room { GeometriesRoom p (length work.old) (length words.old) }
    requires below { Below p.points p.given words.old (3 * p.triangles) }
    ensures kept { Kept p work.old words.old work.new words.new (reached p.triangles result) }
    ensures place { IfErr result (λ e. e.triangle < p.triangles) }
{
    for i in 0..p.triangles {
        look(work, words, p, i)?;
    }
    Ok(())
}
