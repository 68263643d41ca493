// Rows that hold a call of refinement: counts, threshold, lengths of the result slices, the answer's counts, then what is given
// and the refined floor, each at its own place.
ghost use Rattle.std.specs.Prelude.{◌≡◌};
ghost use Rattle.replay.specs.Rows.{front};
ghost use Rattle.replay_refinements.specs.Floors.{same_counts, same_answer, same_four, same_floor, Lends, found_for, made_for, refinement_on, refinement_row};

use refine_call::Counts;
use refusals::Refusal;
use replay::rows::{corners, count, double, doubles, same_doubles, same_numbers};

// What the result slices hold before the call.
const MARK: f64 = -7.5;

const MARK_U32: u32 = 0xdead_beef;

fn same_counts(row: &[u8], counts: Counts) -> bool
    ensures { result ≡ same_counts row.now counts }
{
    counts.points as u64 == replay::word(row, 11)
        && counts.triangles as u64 == replay::word(row, 12)
        && counts.flagged as u64 == replay::word(row, 13)
        && counts.cut as u64 == replay::word(row, 14)
}

// Whether the answer is the one recorded: 0 and the counts, or the row of document 01's table and the place.
fn same_answer(row: &[u8], answer: Result<Counts, Refusal>) -> bool
    ensures { result ≡ same_answer row.now answer }
{
    let told = replay::word(row, 9);
    match answer {
        Ok(counts) => told == 0 && same_counts(row, counts),
        Err(x) => told == x.number && x.place == replay::word(row, 10),
    }
}

// Whether points, sizes, corners and ends of cut sides are the same.
fn same_four(
    op: &[f64],
    os: &[f64],
    ot: &[u32],
    oe: &[u32],
    points: &[f64],
    sizes: &[f64],
    triangles: &[u32],
    ends: &[u32],
) -> bool
    ensures { result ≡ same_four op.now os.now ot.now oe.now
        points.now sizes.now triangles.now ends.now }
{
    same_doubles(op, points)
        && same_doubles(os, sizes)
        && same_numbers(ot, triangles)
        && same_numbers(oe, ends)
}

// Whether the result slices hold what is recorded, and the mark behind it; the counts of a refused call are recorded as 0.
fn same_floor(row: &[u8], op: &[f64], os: &[f64], ot: &[u32], oe: &[u32]) -> bool
    ensures { result ≡ same_floor row.now op.now os.now ot.now oe.now }
{
    let n = count(row, 11, 23);
    let t = count(row, 12, 20);
    let m = count(row, 14, 15);
    let mut points = [MARK; 72];
    let mut sizes = [MARK; 24];
    let mut triangles = [MARK_U32; 64];
    let mut ends = [MARK_U32; 44];
    doubles(row, 70, 3 * n, &mut points);
    doubles(row, 139, n, &mut sizes);
    corners(row, 162, 3 * t, &mut triangles);
    corners(row, 222, 2 * m, &mut ends);
    same_four(op, os, ot, oe, &points, &sizes, &triangles, &ends)
}

// The call, on result slices of the recorded lengths.
fn call(
    row: &[u8],
    points: &[f64],
    tris: &[u32],
    sizes: &[f64],
    angles: &[f64],
    op: &mut [f64],
    os: &mut [f64],
    ot: &mut [u32],
    oe: &mut [u32],
) -> Result<Counts, Refusal>
    ensures { Lends row.now (found_for row.now points.now tris.now sizes.now angles.now
        op.old os.old ot.old oe.old)
        (made_for row.now points.now tris.now sizes.now angles.now)
        op.old os.old ot.old oe.old result op.new os.new ot.new oe.new }
{
    let a = count(row, 5, op.len());
    let b = count(row, 6, os.len());
    let c = count(row, 7, ot.len());
    let d = count(row, 8, oe.len());
    refine_call::refine(
        points,
        tris,
        sizes,
        angles,
        double(row, 4),
        &mut op[0..a],
        &mut os[0..b],
        &mut ot[0..c],
        &mut oe[0..d],
    )
}

// The call on marked result slices, and what they hold after it.
fn ask(row: &[u8], points: &[f64], tris: &[u32], sizes: &[f64], angles: &[f64]) -> bool
    ensures { result ≡ refinement_on row.now points.now tris.now sizes.now angles.now }
{
    let mut op = [MARK; 72];
    let mut os = [MARK; 24];
    let mut ot = [MARK_U32; 64];
    let mut oe = [MARK_U32; 44];
    let answer = call(
        row, points, tris, sizes, angles, &mut op, &mut os, &mut ot, &mut oe,
    );
    if same_answer(row, answer) {
        return same_floor(row, &op, &os, &ot, &oe);
    }
    false
}

// The counts of point numbers, corners, sizes and angles.
fn given(row: &[u8], points: &[f64], tris: &[u32], sizes: &[f64], angles: &[f64]) -> bool
    ensures { result ≡ refinement_on row.now (front row.now 0 points.now) (front row.now 1 tris.now)
        (front row.now 2 sizes.now) (front row.now 3 angles.now) }
{
    let p = count(row, 0, points.len());
    let t = count(row, 1, tris.len());
    let s = count(row, 2, sizes.len());
    let a = count(row, 3, angles.len());
    ask(row, &points[0..p], &tris[0..t], &sizes[0..s], &angles[0..a])
}

// The row of a refinement: at 15 the points, at 39 the sizes, at 47 the angles, at 55 the corners.
pub fn refinement(row: &[u8]) -> bool
    ensures { result ≡ refinement_row row.now }
{
    let mut points = [0.0; 24];
    let mut sizes = [0.0; 8];
    let mut angles = [0.0; 8];
    let mut tris = [0u32; 15];
    doubles(row, 15, 24, &mut points);
    doubles(row, 39, 8, &mut sizes);
    doubles(row, 47, 8, &mut angles);
    corners(row, 55, 15, &mut tris);
    given(row, &points, &tris, &sizes, &angles)
}
