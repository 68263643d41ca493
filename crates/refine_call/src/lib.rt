// Refinement as a call of its own, with the angles given: document 01's refusals, and refine_once's floor in four lent slices.
// No work is lent to it and it has none of its own: what it keeps until it is done stands where its results will (module marks), in no
// place that they do not fill. specs/Call.antt says what it answers and writes, specs/Claim.antt what holds of that, specs/Steps.antt what its steps leave.
#![tactic(auto)]

pub mod marks;
pub mod points;

ghost use Rattle.std.specs.Prelude.{◌≡◌, ◌≤◌, length};
ghost use Rattle.std.proofs.lemmas.List.Edits.{sets};
ghost use Rattle.edges.specs.TwoSlices.{sides_at};
ghost use Rattle.floor.specs.Checks.{MOST-POINTS, MOST-TRIANGLES};
ghost use Rattle.refinement.specs.Floor.{refinement_of, tris_of};
ghost use Rattle.refine_call.specs.Call.{short, check_rest, check_call, CalledOn};
ghost use Rattle.refine_call.specs.Steps.{Marks, Pieces, Filled, ResultRoom, FloorRoom, PutsFloor};

use edges::Table;
use refinement::Cut;
use refusals::{Refusal, refused};

// How many points and triangles the refined floor has, how many triangles were flagged, and how many sides cut.
#[derive(Clone, Copy)]
pub struct Counts {
    pub points: usize,
    pub triangles: usize,
    pub flagged: usize,
    pub cut: usize,
}

// How long the four result slices are.
#[derive(Clone, Copy)]
struct ResultLengths {
    points: usize,
    sizes: usize,
    triangles: usize,
    ends: usize,
}

#[tactic(auto, unfolding(crate::specs::Call::short))]
fn is_short(n: usize, t: usize, l: ResultLengths) -> bool
    requires { (n ≤ MOST-POINTS) × (t ≤ MOST-TRIANGLES) }
    ensures { result ≡ short n t l.points l.sizes l.triangles l.ends }
{
    if l.points < 3 * (n + 3 * t) {
        return true;
    }
    if l.sizes < n + 3 * t {
        return true;
    }
    l.triangles < 12 * t || l.ends < 8 * t
}

// Rows 5, by the count of angles, 12 and 18.
#[tactic(auto, unfolding(crate::specs::Call::check_rest))]
fn check_rest(
    n: usize,
    t: usize,
    angles: usize,
    threshold: f64,
    l: ResultLengths,
) -> Result<(), Refusal>
    requires { (n ≤ MOST-POINTS) × (t ≤ MOST-TRIANGLES) }
    ensures { result ≡ check_rest n t angles threshold l.points l.sizes l.triangles l.ends }
{
    if angles != n {
        return Err(refused(5, 0));
    }
    if floor::not_finite_or_below_zero(threshold) {
        return Err(refused(12, 0));
    }
    if is_short(n, t, l) {
        return Err(refused(18, 0));
    }
    Ok(())
}

// Rows 1 and 3 to 8, then 5, 12 and 18.
fn check_call(
    points: &[f64],
    triangles: &[u32],
    sizes: &[f64],
    angles: usize,
    threshold: f64,
    l: ResultLengths,
) -> Result<(), Refusal>
    ensures { result ≡ check_call points.now triangles.now sizes.now angles threshold
        l.points l.sizes l.triangles l.ends }
{
    if !floor::well_formed(points.len(), triangles.len()) {
        return Err(refused(1, 0));
    }
    floor::check_floor(points, triangles, sizes)?;
    check_rest(points.len() / 3, triangles.len() / 3, angles, threshold, l)
}

// The pieces of the triangles whose sides are cut, over their marks. How many there are.
fn put_pieces(
    triangles: &[u32],
    points: usize,
    ends: &[u32],
    new_triangles: &mut [u32],
    cut: Cut,
) -> usize
    requires { Marks points cut triangles.now ends.now new_triangles.old }
    ensures { Pieces points cut triangles.now ends.now new_triangles.old new_triangles.new result }
{
    let count = triangles.len() / 3;
    if cut.flagged == 0 {
        slices::copy(triangles, new_triangles, 0);
        return count;
    }
    let table = Table {
        base: 3 * count,
        buckets: 3 * cut.flagged,
        sides: cut.sides,
    };
    marks::refine_marked(triangles, count, points, ends, new_triangles, table)
}

// The points and the sizes of the refined floor.
fn put_floor(
    points: &[f64],
    sizes: &[f64],
    ends: &[u32],
    count: usize,
    new_points: &mut [f64],
    new_sizes: &mut [f64],
)
    requires { FloorRoom (length points.now) (length sizes.now) (length ends.now) count (length new_points.old) (length new_sizes.old) }
    ensures { PutsFloor points.now sizes.now (sides_at ends.now count)
        new_points.old new_sizes.old new_points.new new_sizes.new }
{
    points::put_points(points, ends, count, new_points);
    points::put_sizes(sizes, ends, count, new_sizes);
}

// The refinement of an accepted floor: cut sides, pieces, points and sizes. What it keeps in between stands where results will.
fn refine_sound(
    points: &[f64],
    triangles: &[u32],
    sizes: &[f64],
    angles: &[f64],
    threshold: f64,
    new_points: &mut [f64],
    new_sizes: &mut [f64],
    new_triangles: &mut [u32],
    cut_ends: &mut [u32],
) -> Counts
    requires { ResultRoom (length points.now) (length triangles.now) (length sizes.now)
        (length new_points.old) (length new_sizes.old) (length new_triangles.old) (length cut_ends.old) }
    ensures { Filled (refinement_of threshold angles.now points.now sizes.now (tris_of triangles.now))
        new_points.old new_sizes.old new_triangles.old cut_ends.old result
        new_points.new new_sizes.new new_triangles.new cut_ends.new }
{
    let n = points.len() / 3;
    let count = triangles.len() / 3;
    let cut = marks::cut_sides(
        triangles,
        count,
        n,
        angles,
        threshold,
        cut_ends,
        new_triangles,
    );
    let pieces = put_pieces(triangles, n, cut_ends, new_triangles, cut);
    put_floor(points, sizes, cut_ends, cut.sides, new_points, new_sizes);
    Counts {
        points: n + cut.sides,
        triangles: pieces,
        flagged: cut.flagged,
        cut: cut.sides,
    }
}

// Refinement with the angles given. The four slices at the end are its results: points, sizes, corners of triangles, ends of cut sides.
// A refusal is a row of document 01's table with its place.
pub fn refine(
    points: &[f64],
    triangles: &[u32],
    sizes: &[f64],
    angles: &[f64],
    threshold: f64,
    new_points: &mut [f64],
    new_sizes: &mut [f64],
    new_triangles: &mut [u32],
    cut_ends: &mut [u32],
) -> Result<Counts, Refusal>
    ensures { CalledOn points.now triangles.now sizes.now angles.now threshold
        new_points.old new_sizes.old new_triangles.old cut_ends.old result
        new_points.new new_sizes.new new_triangles.new cut_ends.new }
{
    let lengths = ResultLengths {
        points: new_points.len(),
        sizes: new_sizes.len(),
        triangles: new_triangles.len(),
        ends: cut_ends.len(),
    };
    check_call(points, triangles, sizes, angles.len(), threshold, lengths)?;
    Ok(refine_sound(
        points,
        triangles,
        sizes,
        angles,
        threshold,
        new_points,
        new_sizes,
        new_triangles,
        cut_ends,
    ))
}
