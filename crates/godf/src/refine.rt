// The refinement call. For C a slice is a pointer and a length.
ghost use Rattle.std.specs.Prelude.{◌≡◌, [], ◌∷◌, set};
ghost use Rattle.std.proofs.lemmas.List.Edits.{sets};
ghost use Rattle.godf.specs.Report.{code_of, numbers_of, ToldOn};

use refine_call::Counts;
use refusals::Refusal;

// Sets report[i] to x if the slice is long enough.
fn put(report: &mut [u64], i: usize, x: u64)
    ensures { report.new ≡ set report.old i x }
{
    if i < report.len() {
        report[i] = x;
    }
}

// Kept: four calls are as plain as a loop over an array of four.
fn put_four(report: &mut [u64], a: u64, b: u64, c: u64, d: u64)
    ensures { report.new ≡ sets report.old 0 (a ∷ b ∷ c ∷ d ∷ []) }
{
    put(report, 0, a);
    put(report, 1, b);
    put(report, 2, c);
    put(report, 3, d);
}

// Returns the refusal number, or 0, and writes at most report.len() of the four numbers of the report.
fn tell(answer: Result<Counts, Refusal>, report: &mut [u64]) -> u64
    ensures { (result ≡ code_of answer) × (report.new ≡ sets report.old 0 (numbers_of answer)) }
{
    match answer {
        Ok(c) => {
            put_four(
                report,
                c.points as u64,
                c.triangles as u64,
                c.flagged as u64,
                c.cut as u64,
            );
            0
        }
        Err(x) => {
            put_four(report, x.place, 0, 0, 0);
            x.number
        }
    }
}

// refine_call::refine. Returns 0, with the numbers of points, triangles, flagged triangles and cut edges in `report`; or a refusal number, with its place.
#[unsafe(no_mangle)]
pub extern "C" fn godf_refine(
    points: &[f64],
    triangles: &[u32],
    sizes: &[f64],
    angles: &[f64],
    threshold: f64,
    new_points: &mut [f64],
    new_sizes: &mut [f64],
    new_triangles: &mut [u32],
    cut_ends: &mut [u32],
    report: &mut [u64],
) -> u64
    ensures { ToldOn points.now triangles.now sizes.now angles.now threshold
        new_points.old new_sizes.old new_triangles.old cut_ends.old report.old
        result new_points.new new_sizes.new new_triangles.new cut_ends.new report.new }
{
    let answer = refine_call::refine(
        points,
        triangles,
        sizes,
        angles,
        threshold,
        new_points,
        new_sizes,
        new_triangles,
        cut_ends,
    );
    tell(answer, report)
}
