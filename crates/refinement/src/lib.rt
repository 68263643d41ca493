// Refinement of a floor, the Rust's refine_once step by step: which triangles are flagged, the cut sides in the order first met, and the pieces of each
// triangle. Cut sides stand in a table of crate edges, in the slice `numbers`.
// specs/Floor.antt has the whole as one definition; specs/Flag.antt says which triangles are flagged, specs/Guidance.antt what guidance a refined floor has.
#![tactic(auto)]

ghost use Rattle.std.specs.Prelude.{◌≡◌, ◌+◌, ◌*◌, ◌<◌, ◌≤◌, ◌^◌, length, take};
ghost use Rattle.std.proofs.lemmas.List.Edits.{sets};
ghost use Rattle.mesh.specs.Mesh.{tri, mid, split, pieces, refined};
ghost use Rattle.edges.specs.Table.{end_of, place, cuts_in};
ghost use Rattle.refinement.specs.Flag.{turn_along, variation, angle, flagged_tri};
ghost use Rattle.refinement.specs.Floor.{tris, tri_at};
ghost use Rattle.refinement.specs.Steps.{having, HeldIn, CutStep, CutTo, Rows};
ghost use Rattle.refinement.specs.Stored.{Stored};

use edges::Table;

// How far the field turns along a side, from the angles at its ends.
#[tactic(auto, unfolding(crate::specs::Flag::turn_along))]
pub fn turn_along(a: f64, b: f64) -> f64
    ensures { result ≡ turn_along a b }
{
    let d = float::rem_euclid(a - b, float::FRAC_PI_2);
    float::min(d, float::FRAC_PI_2 - d)
}

// The largest turn over the sides of a triangle whose corners have these angles.
#[tactic(auto, unfolding(crate::specs::Flag::variation))]
pub fn largest_turn(a: f64, b: f64, c: f64) -> f64
    ensures { result ≡ variation a b c }
{
    let ab = float::max(0.0, turn_along(a, b));
    let bc = float::max(ab, turn_along(b, c));
    float::max(bc, turn_along(c, a))
}

// Maximum 4-RoSy angle difference over the vertices of the triangle a b c.
pub fn triangle_field_variation(alpha: &[f64], a: u32, b: u32, c: u32) -> f64
    ensures { result ≡ variation (angle alpha.now a) (angle alpha.now b) (angle alpha.now c) }
{
    let x = floor::read(alpha, mesh::index(a));
    let y = floor::read(alpha, mesh::index(b));
    let z = floor::read(alpha, mesh::index(c));
    largest_turn(x, y, z)
}

#[tactic(auto, unfolding(crate::specs::Flag::flagged_tri, crate::specs::Flag::flagged))]
pub fn is_flagged(alpha: &[f64], threshold: f64, a: u32, b: u32, c: u32) -> bool
    ensures { result ≡ flagged_tri threshold alpha.now (tri a b c) }
{
    let v = triangle_field_variation(alpha, a, b, c);
    !(v <= threshold)
}

// How many sides are cut, and how many triangles flagged, so far.
#[derive(Clone, Copy)]
pub struct Cut {
    pub sides: usize,
    pub flagged: usize,
}

// Triangle i is looked at: if it is flagged, its sides are cut. The table has the sides cut so far.
fn cut_triangle(
    triangles: &[u32],
    i: usize,
    angles: &[f64],
    threshold: f64,
    numbers: &mut [u32],
    table: Table,
    cut: Cut,
) -> Cut
    requires held_in { HeldIn (having table cut.sides) numbers.old }
    requires i_in_bounds { (3 * i + 3 ≤ length triangles.now) × ((end_of (having table (cut.sides + 3)) ≤ length numbers.old) × ((cut.sides + 3 < 2 ^ 32) × (cut.flagged < 2 ^ 32))) }
    ensures { CutStep table (flagged_tri threshold angles.now) (tri_at triangles.now i) numbers.old cut numbers.new result }
{
    let c = mesh::corners(triangles, 3 * i);
    if is_flagged(angles, threshold, c.a, c.b, c.c) {
        let before = Table {
            sides: cut.sides,
            ..table
        };
        let met = edges::meet_triangle(numbers, before, c.a, c.b, c.c);
        return Cut {
            sides: met.sides,
            flagged: cut.flagged + 1,
        };
    }
    cut
}

// The sides of the flagged triangles among the first `count`, in the order first met, in an empty table.
pub fn cut_sides(
    triangles: &[u32],
    count: usize,
    angles: &[f64],
    threshold: f64,
    numbers: &mut [u32],
    table: Table,
) -> Cut
    requires held_in { HeldIn (having table 0) numbers.old }
    requires count_in_bounds { (3 * count ≤ length triangles.now) × ((end_of (having table (3 * count)) ≤ length numbers.old) × (3 * count < 2 ^ 32)) }
    ensures { CutTo table (flagged_tri threshold angles.now) triangles.now count numbers.old numbers.new result }
{
    let mut cut = Cut {
        sides: 0,
        flagged: 0,
    };
    for i in 0..count {
        cut = cut_triangle(triangles, i, angles, threshold, numbers, table, cut);
    }
    cut
}

// The midpoint of the side of u and v, if that is cut. There are `points` points, and the cut sides are in the table.
pub fn middle(numbers: &[u32], table: Table, points: usize, u: u32, v: u32) -> Option<u32>
    requires held_in { HeldIn table numbers.now }
    requires sides_bound { points + table.sides < 2 ^ 32 }
    ensures { place result ≡ mid points (cuts_in table numbers.now) u v }
{
    let number = edges::find_side(numbers, table, u, v)?;
    Some((points + number) as u32)
}

// The pieces of a triangle: how many, and their corners in list order, with 0 behind them.
#[derive(Clone, Copy)]
pub struct Pieces {
    pub count: usize,
    pub rows: [u32; 12],
}

// The pieces of a b c, where p, q and r are the midpoints of a b, b c and c a, of those that are cut.
#[tactic(auto, unfolding(crate::specs::Floor::corners_of, crate::specs::Steps::rows_of))]
pub fn split_triangle(
    a: u32,
    b: u32,
    c: u32,
    p: Option<u32>,
    q: Option<u32>,
    r: Option<u32>,
) -> Pieces
    ensures { Rows (split a b c (place p) (place q) (place r)) result.count result.rows }
{
    match (p, q, r) {
        (None, None, None) => Pieces {
            count: 1,
            rows: [a, b, c, 0, 0, 0, 0, 0, 0, 0, 0, 0],
        },
        (None, None, Some(r)) => Pieces {
            count: 2,
            rows: [a, b, r, r, b, c, 0, 0, 0, 0, 0, 0],
        },
        (None, Some(q), None) => Pieces {
            count: 2,
            rows: [a, b, q, a, q, c, 0, 0, 0, 0, 0, 0],
        },
        (None, Some(q), Some(r)) => Pieces {
            count: 3,
            rows: [c, q, r, q, b, a, q, a, r, 0, 0, 0],
        },
        (Some(p), None, None) => Pieces {
            count: 2,
            rows: [a, p, c, p, b, c, 0, 0, 0, 0, 0, 0],
        },
        (Some(p), None, Some(r)) => Pieces {
            count: 3,
            rows: [a, p, r, p, b, c, p, c, r, 0, 0, 0],
        },
        (Some(p), Some(q), None) => Pieces {
            count: 3,
            rows: [b, p, q, p, a, c, p, c, q, 0, 0, 0],
        },
        (Some(p), Some(q), Some(r)) => Pieces {
            count: 4,
            rows: [a, p, r, p, b, q, r, q, c, p, q, r],
        },
    }
}

// The pieces of triangle i.
pub fn pieces_of(
    triangles: &[u32],
    i: usize,
    points: usize,
    numbers: &[u32],
    table: Table,
) -> Pieces
    requires held_in { HeldIn table numbers.now }
    requires i_in_bounds { (3 * i + 3 ≤ length triangles.now) × (points + table.sides < 2 ^ 32) }
    ensures { Rows (pieces (mid points (cuts_in table numbers.now)) (tri_at triangles.now i)) result.count result.rows }
{
    let c = mesh::corners(triangles, 3 * i);
    let p = middle(numbers, table, points, c.a, c.b);
    let q = middle(numbers, table, points, c.b, c.c);
    let r = middle(numbers, table, points, c.c, c.a);
    split_triangle(c.a, c.b, c.c, p, q, r)
}

// The first len numbers of the rows, from `at` on.
pub fn put_rows(out: &mut [u32], at: usize, rows: [u32; 12], len: usize)
    requires { (len ≤ 12) × (at + len ≤ length out.old) }
    ensures { out.new ≡ sets out.old at (take len rows) }
{
    slices::copy(&rows[..len], out, at);
}

// ---- the triangles of a refined floor, behind the table of cut sides in one slice

// The pieces of triangle i behind k others from `at` on, in the slice that has the table. How many there are then.
fn refine_triangle_within(
    triangles: &[u32],
    i: usize,
    points: usize,
    numbers: &mut [u32],
    table: Table,
    at: usize,
    k: usize,
) -> usize
    requires held_in { HeldIn table numbers.old }
    requires i_in_bounds { (3 * i + 3 ≤ length triangles.now) × ((points + table.sides < 2 ^ 32) × (at + 3 * k + 12 ≤ length numbers.old)) }
    ensures { Stored (pieces (mid points (cuts_in table numbers.old)) (tri_at triangles.now i)) numbers.old (at + 3 * k) k numbers.new result }
{
    let p = pieces_of(triangles, i, points, numbers, table);
    let rows = p.rows;
    put_rows(numbers, at + 3 * k, rows, 3 * p.count);
    k + p.count
}

// The pieces of the first `count` triangles, in the slice that has the table, from `at` on. How many there are.
pub fn refine_triangles_within(
    triangles: &[u32],
    count: usize,
    points: usize,
    numbers: &mut [u32],
    table: Table,
    at: usize,
) -> usize
    requires held_in { HeldIn table numbers.old }
    requires count_in_bounds { ((3 * count ≤ length triangles.now) × (points + table.sides < 2 ^ 32)) × ((end_of table ≤ at) × (at + 12 * count ≤ length numbers.old)) }
    ensures { Stored (refined (mid points (cuts_in table numbers.old)) (tris triangles.now count)) numbers.old at 0 numbers.new result }
{
    let mut k = 0;
    for i in 0..count {
        k = refine_triangle_within(triangles, i, points, numbers, table, at, k);
    }
    k
}
