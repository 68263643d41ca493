// The solve call. For C a slice is a pointer and a length, and a reference to an array is a pointer: seven doubles are a struct godf_options, seven
// numbers a struct godf_report.
ghost use Rattle.std.specs.Prelude.{◌≡◌, ◌≤◌};
ghost use Rattle.pass.specs.Pass.{pass_of};
ghost use Rattle.calls.specs.Solve.{solve_of, number_of};
ghost use Rattle.solve.specs.Passes.{call_for, lent};
ghost use Rattle.godf.specs.Solve.{boundary_of, options_of, asked_of, report_of, SolveTold, most_of, fine_count, work_reals, work_words, AnswerTold};

use calls::Counts;
use pass::Asked;
use pass_options::{BoundaryMode, Options};
use refusals::Refusal;

// Kept: modes are numbers, as C has them.
// Boundary modes: GODF_BOUNDARY_NONE, _TANGENT and _WEAK in godf.h.
const NONE: f64 = 0.0;

const TANGENT: f64 = 1.0;

const WEAK: f64 = 2.0;

// Any other number becomes a weak mode of this weight, which is refusal 13.
const NO_WEIGHT: f64 = -1.0;

fn boundary_of(mode: f64, weight: f64) -> BoundaryMode
    ensures { result ≡ boundary_of mode weight }
{
    if mode == NONE {
        return BoundaryMode::None;
    }
    if mode == TANGENT {
        return BoundaryMode::Tangent;
    }
    if mode == WEAK {
        return BoundaryMode::Weak(weight);
    }
    BoundaryMode::Weak(NO_WEIGHT)
}

fn options_of(o: &[f64; 7]) -> Options
    ensures { result ≡ options_of o.now }
{
    let boundary = boundary_of(o[4], o[5]);
    Options {
        accurate: o[0] != 0.0,
        holomorphic: o[1],
        anisotropy: o[2],
        anisotropy_angle: o[3],
        boundary,
        adaptive: o[6],
    }
}

fn asked_of(guided: u32, weight: f64, iterations: usize) -> Asked
    ensures { result ≡ asked_of guided weight iterations }
{
    Asked {
        guided: guided != 0,
        weight,
        iterations,
    }
}

// Fills the report and returns the refusal number, or 0.
fn tell_outcome(outcome: Result<Counts, Refusal>, report: &mut [u64; 7]) -> u64
    ensures { (result ≡ number_of outcome) × (report.new ≡ report_of outcome) }
{
    match outcome {
        Ok(c) => {
            *report = [0, 0, 0, 0, 0, c.flagged as u64, c.cut as u64];
            0
        }
        Err(x) => {
            *report = [x.number, x.place, x.other, x.pass, x.reason, 0, 0];
            x.number
        }
    }
}

// solve::solve. Returns 0, or a refusal number.
#[unsafe(no_mangle)]
pub extern "C" fn godf_solve(
    points: &[f64],
    triangles: &[u32],
    sizes: &[f64],
    guidance: &[f64],
    guided: u32,
    weight: f64,
    options: &[f64; 7],
    iterations: usize,
    coarse: &mut [f64],
    fine: &mut [f64],
    work: &mut [f64],
    words: &mut [u32],
    report: &mut [u64; 7],
) -> u64
    ensures { SolveTold
        (solve_of pass_of
        (call_for points.now triangles.now sizes.now guidance.now (options_of options.now) (asked_of guided weight iterations))
        (lent coarse.old fine.old work.old words.old))
        result coarse.new fine.new work.new words.new report.new }
{
    let o = options_of(options);
    let a = asked_of(guided, weight, iterations);
    let outcome = solve::solve(
        points, triangles, sizes, guidance, coarse, fine, work, words, o, a,
    );
    tell_outcome(outcome, report)
}

// n' and t' of refusal 18: the most points and triangles after refinement.
#[derive(Clone, Copy)]
pub struct Most {
    pub points: usize,
    pub triangles: usize,
}

fn most_of(n: usize, triangles: usize, threshold: f64) -> Most
    ensures { (result ≡ most_of n triangles threshold) × ((result.points ≤ 114688) × (result.triangles ≤ 131072)) }
{
    if n > floor::MOST_POINTS {
        return Most {
            points: 0,
            triangles: 0,
        };
    }
    if triangles > floor::MOST_TRIANGLES {
        return Most {
            points: 0,
            triangles: 0,
        };
    }
    let points = calls::most_points(threshold > 0.0, n, triangles);
    Most {
        points,
        triangles: calls::most_triangles(threshold > 0.0, triangles),
    }
}

// Length of the fine slice by refusal 18; 0 above the limits of refusal 1.
#[unsafe(no_mangle)]
pub extern "C" fn godf_fine_count(n: usize, triangles: usize, threshold: f64) -> usize
    ensures { result ≡ fine_count n triangles threshold }
{
    if threshold > 0.0 {
        return most_of(n, triangles, threshold).points;
    }
    0
}

// Length of the f64 work by refusal 18; 0 above the limits of refusal 1.
#[unsafe(no_mangle)]
pub extern "C" fn godf_work_f64(n: usize, triangles: usize, threshold: f64) -> usize
    ensures { result ≡ work_reals n triangles threshold }
{
    let m = most_of(n, triangles, threshold);
    64 * m.points + 32 * m.triangles
}

// Length of the u32 work by refusal 18; 0 above the limits of refusal 1.
#[unsafe(no_mangle)]
pub extern "C" fn godf_work_u32(n: usize, triangles: usize, threshold: f64) -> usize
    ensures { result ≡ work_words n triangles threshold }
{
    let m = most_of(n, triangles, threshold);
    16 * m.points + 32 * m.triangles
}

// calls::answer: the field is the first `count` angles of `coarse` (0 is returned) or of `fine` (1).
#[unsafe(no_mangle)]
pub extern "C" fn godf_answer<'a>(
    coarse: &'a [f64],
    fine: &'a [f64],
    n: usize,
    flagged: usize,
    count: &mut usize,
) -> u32
    ensures { AnswerTold n flagged coarse.now fine.now result count.new }
{
    let part = calls::answer(coarse, fine, n, flagged);
    *count = part.len();
    if flagged == 0 {
        return 0;
    }
    1
}
