// Refinement in the slices that take its results, with no others: each triangle has three marks where its corners stand later, and the table of cut sides has
// its ends where they are handed back and the rest behind the marks, where pieces will stand (specs/Marks.antt). Flags, then the sides of flagged triangles,
// then the marks of the others, then the pieces, from the last triangle to the first, so that no mark is lost before it is read.
ghost use Rattle.std.specs.Prelude.{◌≡◌, ◌≢◌, ℕ, ◌+◌, ◌*◌, ◌<◌, ◌≤◌, ◌^◌, length, get_or};
ghost use Rattle.std.proofs.lemmas.List.Edits.{sets};
ghost use Rattle.mesh.specs.Mesh.{mid, split, refined};
ghost use Rattle.edges.specs.Table.{place, one_more, one_less};
ghost use Rattle.edges.specs.TwoSlices.{sides_at, HeldInTwo};
ghost use Rattle.refinement.specs.Flag.{flagged_tri};
ghost use Rattle.refinement.specs.Floor.{tri_at, tris, corners_of};
ghost use Rattle.refinement.specs.Stored.{Stored};
ghost use Rattle.refine_call.specs.Marks.{cut_mark, marked_by, split_at, split_to, CutsAt, FlagsTo, MarksRoom, CutsStep, CutsTo, Marked};
ghost use Rattle.refine_call.specs.Marks.{PiecesRoom, MarksStep, MarksTo};

use edges::Table;
use refinement::Cut;

// ---- flags

// Whether triangle i is flagged.
fn flag_of(triangles: &[u32], i: usize, angles: &[f64], threshold: f64) -> bool
    requires { 3 * i + 3 ≤ length triangles.now }
    ensures { result ≡ flagged_tri threshold angles.now (tri_at triangles.now i) }
{
    let c = mesh::corners(triangles, 3 * i);
    refinement::is_flagged(angles, threshold, c.a, c.b, c.c)
}

// The flags of the first `count` triangles, 0 or 1, each at the first mark. How many are flagged.
pub fn put_flags(
    triangles: &[u32],
    count: usize,
    angles: &[f64],
    threshold: f64,
    marks: &mut [u32],
) -> usize
    requires { (3 * count ≤ length triangles.now) × (3 * count ≤ length marks.old) }
    ensures { FlagsTo (flagged_tri threshold angles.now) triangles.now count marks.old marks.new result }
{
    let mut flagged = 0;
    for i in 0..count {
        let flag = flag_of(triangles, i, angles, threshold);
        marks[3 * i] = u32::from(flag);
        flagged += usize::from(flag);
    }
    flagged
}

// ---- the sides of flagged triangles

// If triangle i is flagged, its sides are cut and marked. How many sides there are then.
fn cut_marked(
    triangles: &[u32],
    i: usize,
    points: usize,
    ends: &mut [u32],
    marks: &mut [u32],
    table: Table,
) -> usize
    requires held_in_two { HeldInTwo table.base table.buckets ends.old marks.old table.sides }
    requires marks_room { MarksRoom points table.base table.buckets (i + 1) (length triangles.now) (length ends.old) (length marks.old) × (table.sides ≤ 3 * i) }
    ensures { CutsStep points table.base table.buckets triangles.now i ends.old marks.old table.sides
        ends.new marks.new result }
{
    let at = 3 * i;
    if marks[at] == 0 {
        return table.sides;
    }
    let c = mesh::corners(triangles, at);
    let met = edges::two_slices::meet_triangle(ends, marks, table, c.a, c.b, c.c);
    edges::numbers::put_three(
        marks,
        at,
        (points + met.ab + 1) as u32,
        (points + met.bc + 1) as u32,
        (points + met.ca + 1) as u32,
    );
    met.sides
}

// The sides of the flagged ones of the first `count` triangles are cut, in an empty table behind the marks, and marked. How many there are.
fn cut_all(
    triangles: &[u32],
    count: usize,
    points: usize,
    ends: &mut [u32],
    marks: &mut [u32],
    buckets: usize,
) -> usize
    requires held_in_two { HeldInTwo (3 * count) buckets ends.old marks.old 0 }
    requires marks_room { MarksRoom points (3 * count) buckets count (length triangles.now) (length ends.old) (length marks.old) }
    ensures { CutsTo points buckets count triangles.now count ends.old marks.old ends.new marks.new result }
{
    let mut sides = 0;
    for i in 0..count {
        let table = Table {
            base: 3 * count,
            buckets,
            sides,
        };
        sides = cut_marked(triangles, i, points, ends, marks, table);
    }
    sides
}

// Flags, and the cut sides of the flagged triangles. Where none is flagged there is no table.
pub fn cut_sides(
    triangles: &[u32],
    count: usize,
    points: usize,
    angles: &[f64],
    threshold: f64,
    ends: &mut [u32],
    marks: &mut [u32],
) -> Cut
    requires { MarksRoom points (3 * count) (3 * count) count (length triangles.now) (length ends.old) (length marks.old) }
    ensures { Marked (flagged_tri threshold angles.now) points triangles.now count
        ends.old marks.old ends.new marks.new result }
{
    let flagged = put_flags(triangles, count, angles, threshold, marks);
    if flagged == 0 {
        return Cut {
            sides: 0,
            flagged: 0,
        };
    }
    slices::fill(marks, 3 * count, 3 * flagged, 0);
    let sides = cut_all(triangles, count, points, ends, marks, 3 * flagged);
    Cut { sides, flagged }
}

// ---- the marks of the other triangles

// One more than the midpoint of the side of u and v, or 0 if it is not cut.
// Kept: marks stand in the slice of corners, as numbers; `midpoint` reads one back.
fn mark_of(ends: &[u32], marks: &[u32], table: Table, points: usize, u: u32, v: u32) -> u32
    requires held_in_two { HeldInTwo table.base table.buckets ends.now marks.now table.sides }
    requires sides_bound { points + table.sides < 2 ^ 32 }
    ensures { result ≡ one_more (mid points (sides_at ends.now table.sides) u v) }
{
    match edges::two_slices::find_side(ends, marks, table, u, v) {
        Some(number) => (points + number + 1) as u32,
        None => 0,
    }
}

// 1 where a side is cut.
fn cut_of(mark: u32) -> usize
    ensures { result ≡ cut_mark mark }
{
    usize::from(mark != 0)
}

// How many pieces a triangle with these marks has.
fn pieces_with(p: u32, q: u32, r: u32) -> usize
    ensures { (a b c : ℕ) → result ≡ length (split a b c (one_less p) (one_less q) (one_less r)) }
{
    1 + cut_of(p) + cut_of(q) + cut_of(r)
}

// If triangle i is not flagged, the marks of its sides. How many pieces it has.
fn mark_triangle(
    triangles: &[u32],
    i: usize,
    points: usize,
    ends: &[u32],
    marks: &mut [u32],
    table: Table,
) -> usize
    requires held_in_two { HeldInTwo table.base table.buckets ends.now marks.old table.sides }
    requires pieces_room { PiecesRoom points table.base table.sides (i + 1) (length triangles.now) }
    requires cuts_at { get_or marks.old (3 * i) 0 ≢ 0 → CutsAt points (sides_at ends.now table.sides) marks.old triangles.now i }
    ensures { MarksStep points (sides_at ends.now table.sides) triangles.now i marks.old marks.new result }
{
    let at = 3 * i;
    if marks[at] != 0 {
        return 4;
    }
    let c = mesh::corners(triangles, at);
    let p = mark_of(ends, marks, table, points, c.a, c.b);
    let q = mark_of(ends, marks, table, points, c.b, c.c);
    let r = mark_of(ends, marks, table, points, c.c, c.a);
    edges::numbers::put_three(marks, at, p, q, r);
    pieces_with(p, q, r)
}

// The marks of all triangles. How many pieces they have.
fn mark_all(
    triangles: &[u32],
    count: usize,
    points: usize,
    ends: &[u32],
    marks: &mut [u32],
    table: Table,
) -> usize
    requires held_in_two { HeldInTwo table.base table.buckets ends.now marks.old table.sides }
    requires pieces_room { PiecesRoom points table.base table.sides count (length triangles.now) }
    requires by_index { (j : ℕ) → j < count → get_or marks.old (3 * j) 0 ≢ 0 → CutsAt points (sides_at ends.now table.sides) marks.old triangles.now j }
    ensures { MarksTo points (sides_at ends.now table.sides) triangles.now count marks.old marks.new result }
{
    let mut pieces = 0;
    for i in 0..count {
        pieces += mark_triangle(triangles, i, points, ends, marks, table);
    }
    pieces
}

// ---- the pieces

// The midpoint of a mark.
fn midpoint(mark: u32) -> Option<u32>
    ensures { place result ≡ one_less mark }
{
    mark.checked_sub(1)
}

// The pieces of triangle i in front of the first `before` pieces' end: behind those of the triangles before it. How many are before it.
fn split_marked(triangles: &[u32], i: usize, marks: &mut [u32], before: usize) -> usize
    requires i_in_bounds { (3 * i + 3 ≤ length triangles.now) × ((3 * i + 3 ≤ length marks.old) × (3 * before ≤ length marks.old)) }
    requires i_len_bound { length (split_at marks.old triangles.now i) ≤ before }
    ensures { (result + length (split_at marks.old triangles.now i) ≡ before)
        × (marks.new ≡ sets marks.old (3 * result) (corners_of (split_at marks.old triangles.now i))) }
{
    let at = 3 * i;
    let c = mesh::corners(triangles, at);
    let m = mesh::corners(marks, at);
    let p = refinement::split_triangle(c.a, c.b, c.c, midpoint(m.a), midpoint(m.b), midpoint(m.c));
    let first = before - p.count;
    let rows = p.rows;
    refinement::put_rows(marks, 3 * first, rows, 3 * p.count);
    first
}

// The pieces of the first `count` triangles, `pieces` in all, from the last triangle to the first.
fn split_all(triangles: &[u32], count: usize, marks: &mut [u32], pieces: usize)
    requires count_in_bounds { (3 * count ≤ length triangles.now) × (3 * pieces ≤ length marks.old) }
    requires pieces_value { pieces ≡ length (split_to marks.old triangles.now count) }
    ensures { marks.new ≡ sets marks.old 0 (corners_of (split_to marks.old triangles.now count)) }
{
    let mut before = pieces;
    for i in (0..count).rev() {
        before = split_marked(triangles, i, marks, before);
    }
}

// The pieces of the first `count` triangles, whose cut sides are in the table and whose flagged ones have their marks. How many there are.
pub fn refine_marked(
    triangles: &[u32],
    count: usize,
    points: usize,
    ends: &[u32],
    marks: &mut [u32],
    table: Table,
) -> usize
    requires held_in_two { HeldInTwo table.base table.buckets ends.now marks.old table.sides }
    requires pieces_room { PiecesRoom points table.base table.sides count (length triangles.now) × (12 * count ≤ length marks.old) }
    requires by_index { (j : ℕ) → j < count → get_or marks.old (3 * j) 0 ≢ 0 → CutsAt points (sides_at ends.now table.sides) marks.old triangles.now j }
    ensures { Stored (refined (mid points (sides_at ends.now table.sides)) (tris triangles.now count)) marks.old 0 0 marks.new result
        × (count + 3 * length (marked_by marks.old triangles.now count) ≤ result) }
{
    let pieces = mark_all(triangles, count, points, ends, marks, table);
    split_all(triangles, count, marks, pieces);
    pieces
}
