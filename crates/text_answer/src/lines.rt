// The lines that the refinement program prints for an answer of the refinement call: the counts, the triangles, the ends of the cut
// sides; or `refused`. specs/Lines.antt says which bytes they are.
ghost use Rattle.std.specs.Prelude.{◌≡◌, [], ◌∷◌, ◌+◌, ◌*◌, ◌≤◌, length};
ghost use Rattle.std.proofs.lemmas.List.Edits.{sets};
ghost use Rattle.refinement.specs.Floor.{tris};
ghost use Rattle.text_columns.specs.Columns.{line_of};
ghost use Rattle.text_answer.specs.Lines.{triangle_lines, side_lines, lines_of, refused_line, sides_up_to, line_at, side_at, bytes_for, Holds, Prints};

use refine_call::Counts;
use refusals::Refusal;

// The line of triangle i.
fn put_triangle(corners: &[u32], i: usize, out: &mut [u8], at: usize)
    requires { (3 * i + 3 ≤ length corners.now) × (at + 19 ≤ length out.old) }
    ensures { out.new ≡ sets out.old at (line_at corners.now i) }
{
    let c = mesh::corners(corners, 3 * i);
    let row = [u64::from(c.a), u64::from(c.b), u64::from(c.c)];
    text_columns::put_line(out, at, &row);
}

// The lines of k triangles.
fn put_triangles(corners: &[u32], k: usize, out: &mut [u8], at: usize)
    requires { (3 * k ≤ length corners.now) × (at + 19 * k ≤ length out.old) }
    ensures { out.new ≡ sets out.old at (triangle_lines (tris corners.now k)) }
{
    for i in 0..k {
        put_triangle(corners, i, out, at + 19 * i);
    }
}

// The line of side i.
fn put_side(ends: &[u32], i: usize, out: &mut [u8], at: usize)
    requires { (2 * i + 2 ≤ length ends.now) × (at + 13 ≤ length out.old) }
    ensures { out.new ≡ sets out.old at (side_at ends.now i) }
{
    let row = [u64::from(ends[2 * i]), u64::from(ends[2 * i + 1])];
    text_columns::put_line(out, at, &row);
}

// Kept: it differs from put_triangles in the step that it calls, as in text_floor::put_points.
// The lines of m sides.
fn put_sides(ends: &[u32], m: usize, out: &mut [u8], at: usize)
    requires { (2 * m ≤ length ends.now) × (at + 13 * m ≤ length out.old) }
    ensures { out.new ≡ sets out.old at (side_lines (sides_up_to ends.now m)) }
{
    for i in 0..m {
        put_side(ends, i, out, at + 13 * i);
    }
}

// The line of the counts.
fn put_counts(c: Counts, out: &mut [u8])
    requires { 25 ≤ length out.old }
    ensures { out.new ≡ sets out.old 0 (line_of (c.points ∷ c.triangles ∷ c.flagged ∷ c.cut ∷ [])) }
{
    let row = [
        c.points as u64,
        c.triangles as u64,
        c.flagged as u64,
        c.cut as u64,
    ];
    text_columns::put_line(out, 0, &row);
}

// The lines of an accepted call.
fn put_floor(c: Counts, corners: &[u32], ends: &[u32], out: &mut [u8]) -> usize
    requires { (3 * c.triangles ≤ length corners.now) × ((2 * c.cut ≤ length ends.now) × (25 + 19 * c.triangles + 13 * c.cut ≤ length out.old)) }
    ensures { Prints (lines_of c (tris corners.now c.triangles) (sides_up_to ends.now c.cut)) out.old out.new result }
{
    let k = c.triangles;
    let m = c.cut;
    let at = 25 + 19 * k;
    put_counts(c, out);
    put_triangles(corners, k, out, 25);
    put_sides(ends, m, out, at);
    at + 13 * m
}

// The line `refused`.
#[tactic(auto, unfolding(crate::specs::Lines::refused_line))]
pub fn put_refused(out: &mut [u8]) -> usize
    requires { 8 ≤ length out.old }
    ensures { (out.new ≡ sets out.old 0 refused_line) × (result ≡ length refused_line) }
{
    let line = b"refused\n";
    slices::copy(line, out, 0);
    line.len()
}

// The lines of an answer of the refinement call, with the corners of its triangles and the ends of its cut sides. How many bytes.
pub fn write_answer(
    answer: Result<Counts, Refusal>,
    corners: &[u32],
    ends: &[u32],
    out: &mut [u8],
) -> usize
    requires { Holds answer (length corners.now) (length ends.now) (length out.old) }
    ensures { (out.new ≡ sets out.old 0 (bytes_for answer corners.now ends.now))
        × (result ≡ length (bytes_for answer corners.now ends.now)) }
{
    match answer {
        Ok(c) => put_floor(c, corners, ends, out),
        Err(_) => put_refused(out),
    }
}
