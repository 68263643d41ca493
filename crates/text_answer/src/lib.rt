// The refinement program of document 01 as a function from the bytes read to the bytes printed: `answer` reads a text of columns,
// refines its floor and writes the new triangles and the cut sides, or the line `refused`. specs/Printed.antt says what is printed.
#![tactic(auto)]

mod lines;

ghost use Rattle.std.specs.Prelude.{◌≡◌, ◌*◌, ◌/◌, ◌≤◌, length, take, replicate};
ghost use Rattle.std.proofs.lemmas.List.Edits.{sets};
ghost use Rattle.float.specs.Double.{lit};
ghost use Rattle.text_answer.specs.Lines.{Prints};
ghost use Rattle.text_answer.specs.Printed.{printed, longest, filled_by, count_by};
ghost use Rattle.text_answer.specs.Steps.{bytes_from, Sized};

// The longest answer: 1,024 triangles and 768 cut sides.
pub const LONGEST: usize = 29465;

// ---- from a floor to its lines

// The refinement call on four result slices, and its lines.
fn answer_into(
    points: &[f64],
    triangles: &[u32],
    sizes: &[f64],
    angles: &[f64],
    threshold: f64,
    new_points: &mut [f64],
    new_sizes: &mut [f64],
    new_triangles: &mut [u32],
    cut_ends: &mut [u32],
    out: &mut [u8],
) -> usize
    requires { Sized (length triangles.now) (length new_points.old) (length new_sizes.old) (length new_triangles.old) (length cut_ends.old) (length out.old) }
    ensures { Prints (bytes_from points.now triangles.now sizes.now angles.now threshold)
        out.old out.new result }
{
    let answer = refine_call::refine(
        points,
        triangles,
        sizes,
        angles,
        threshold,
        new_points,
        new_sizes,
        new_triangles,
        cut_ends,
    );
    lines::write_answer(answer, new_triangles, cut_ends, out)
}

// The lines of a floor of at most 256 triangles.
fn answer_floor(
    points: &[f64],
    triangles: &[u32],
    sizes: &[f64],
    angles: &[f64],
    threshold: f64,
    out: &mut [u8],
) -> usize
    requires { (length triangles.now / 3 ≤ 256) × (longest ≤ length out.old) }
    ensures { Prints (bytes_from points.now triangles.now sizes.now angles.now threshold)
        out.old out.new result }
{
    let mut new_points = [0.0; 3072];
    let mut new_sizes = [0.0; 1024];
    let mut new_triangles = [0u32; 3072];
    let mut cut_ends = [0u32; 2048];
    answer_into(
        points,
        triangles,
        sizes,
        angles,
        threshold,
        &mut new_points,
        &mut new_sizes,
        &mut new_triangles,
        &mut cut_ends,
        out,
    )
}

// ---- from a text to its lines

// The lines of the floor of n points and t triangles at the fronts of four slices.
fn answer_front(
    points: &[f64],
    corners: &[u32],
    sizes: &[f64],
    angles: &[f64],
    n: usize,
    t: usize,
    threshold: f64,
    out: &mut [u8],
) -> usize
    requires n_bound { ((n ≤ 256) × (t ≤ 256)) × (longest ≤ length out.old) }
    requires points_len { (length points.now ≡ 768) × ((length corners.now ≡ 768) × ((length sizes.now ≡ 256) × (length angles.now ≡ 256))) }
    ensures { Prints (bytes_from (take (3 * n) points.now) (take (3 * t) corners.now) (take n sizes.now) (take n angles.now) threshold)
        out.old out.new result }
{
    let a = 3 * n;
    let b = 3 * t;
    answer_floor(
        &points[0..a],
        &corners[0..b],
        &sizes[0..n],
        &angles[0..n],
        threshold,
        out,
    )
}

// What a text prints, over slices for its floor.
fn answer_over(
    text: &[u8],
    points: &mut [f64],
    angles: &mut [f64],
    corners: &mut [u32],
    sizes: &[f64],
    out: &mut [u8],
) -> usize
    requires points_len { (length points.old ≡ 768) × ((length angles.old ≡ 256) × (length corners.old ≡ 768)) }
    requires sizes_value { (sizes.now ≡ replicate 256 (lit 0x3ff0_0000_0000_0000)) × (longest ≤ length out.old) }
    ensures { (out.new ≡ sets out.old 0 (printed text.now)) × (result ≡ length (printed text.now)) }
{
    let Some(f) = text_floor::read_floor(text, points, angles, corners) else {
        return lines::put_refused(out);
    };
    answer_front(
        points,
        corners,
        sizes,
        angles,
        f.points,
        f.triangles,
        f.threshold,
        out,
    )
}

// What a text prints.
fn answer_text(text: &[u8], out: &mut [u8]) -> usize
    requires { longest ≤ length out.old }
    ensures { (out.new ≡ sets out.old 0 (printed text.now)) × (result ≡ length (printed text.now)) }
{
    let mut points = [0.0; 768];
    let mut angles = [0.0; 256];
    let mut corners = [0u32; 768];
    let sizes = [1.0; 256];
    answer_over(text, &mut points, &mut angles, &mut corners, &sizes, out)
}

// What the program prints for a text, at the front of `out`, and how many bytes. A slice shorter than LONGEST stays as it is: 0.
pub fn answer(text: &[u8], out: &mut [u8]) -> usize
    ensures { (out.new ≡ filled_by text.now out.old) × (result ≡ count_by text.now out.old) }
{
    if out.len() < LONGEST {
        return 0;
    }
    answer_text(text, out)
}
