// A floor out of a text of columns, as refine.in has it: whether the bytes are such a text, and its points, angles and corners in
// lent slices. specs/Text.antt says which bytes are a text and what floor it has; proofs/Strict.antt that no two texts have the same
// numbers.
#![tactic(auto)]

ghost use Rattle.std.specs.Prelude.{◌≡◌, true, cond, Some, [], ◌∷◌, ◌+◌, ◌*◌, ◌<◌, ◌≤◌, length};
ghost use Rattle.std.proofs.lemmas.List.Edits.{sets};
ghost use Rattle.float.specs.Double.{lit};
ghost use Rattle.text_columns.specs.Columns.{is_number, is_whole, size_of, double_of};
ghost use Rattle.text_floor.specs.Text.{column_at, first, second, third, line_by, every, point_count, triangle_count, is_head, is_text, radians, points_up_to, angles_up_to, sizes_at, corners_up_to, ReadTo};

use text_columns::Scan;

// The floor that a text has: so many points and triangles, and a threshold.
#[derive(Clone, Copy)]
pub struct Floor {
    pub points: usize,
    pub triangles: usize,
    pub threshold: f64,
}

// ---- columns

// What the column shows that starts at byte a.
fn column_at(text: &[u8], a: usize) -> Scan
    requires { a + 6 ≤ length text.now }
    ensures { result ≡ column_at text.now a }
{
    let b = a + 6;
    text_columns::scan_column(&text[a..b])
}

// Whether the column is a number, and where `whole` says so one that is not below 0.
// Kept: a test as a parameter would put a bound and a `requires` on this and two more functions, for two tests.
fn fits_at(text: &[u8], a: usize, whole: bool) -> bool
    requires { a + 6 ≤ length text.now }
    ensures { result ≡ cond whole is_whole is_number (column_at text.now a) }
{
    let x = column_at(text, a);
    if whole {
        return text_columns::is_whole(x);
    }
    text_columns::is_number(x)
}

fn size_at(text: &[u8], a: usize) -> u32
    requires { a + 6 ≤ length text.now }
    ensures { result ≡ size_of (column_at text.now a) }
{
    text_columns::size(column_at(text, a)) as u32
}

fn double_at(text: &[u8], a: usize) -> f64
    requires { a + 6 ≤ length text.now }
    ensures { result ≡ double_of (column_at text.now a) }
{
    text_columns::double(column_at(text, a))
}

fn radians_at(text: &[u8], a: usize) -> f64
    requires { a + 6 ≤ length text.now }
    ensures { result ≡ radians (column_at text.now a) }
{
    double_at(text, a) / 1024.0
}

// ---- whether it is a text

// Whether line i has three such columns and a line feed.
fn is_line(text: &[u8], i: usize, whole: bool) -> bool
    requires { 19 * i + 19 ≤ length text.now }
    ensures { result ≡ line_by (cond whole is_whole is_number) text.now i }
{
    let a = 19 * i;
    fits_at(text, a, whole)
        && fits_at(text, a + 6, whole)
        && fits_at(text, a + 12, whole)
        && text[a + 18] == 10
}

// Whether k lines from line `from` on are such lines.
fn are_lines(text: &[u8], from: usize, k: usize, whole: bool) -> bool
    requires { 19 * (from + k) ≤ length text.now }
    ensures { result ≡ every (line_by (cond whole is_whole is_number) text.now) from k }
{
    for i in 0..k {
        if !is_line(text, from + i, whole) {
            return false;
        }
    }
    true
}

// Whether line 0 is right.
fn is_head(text: &[u8]) -> bool
    requires { 19 ≤ length text.now }
    ensures { result ≡ is_head text.now }
{
    if !is_line(text, 0, false) {
        return false;
    }
    if !fits_at(text, 0, true) {
        return false;
    }
    if !fits_at(text, 6, true) {
        return false;
    }
    size_at(text, 0) <= 256 && size_at(text, 6) <= 256
}

// Whether the lines behind a right line 0 are.
fn is_body(text: &[u8], n: usize, t: usize) -> bool
    requires n_bound { (n ≤ 256) × (t ≤ 256) }
    requires n_value { (n ≡ point_count text.now) × ((t ≡ triangle_count text.now) × (is_head text.now ≡ true)) }
    ensures { result ≡ is_text text.now }
{
    if text.len() != 19 * (1 + n + t) {
        return false;
    }
    if !are_lines(text, 1, n, false) {
        return false;
    }
    are_lines(text, 1 + n, t, true)
}

fn is_text(text: &[u8]) -> bool
    ensures { result ≡ is_text text.now }
{
    if text.len() < 19 {
        return false;
    }
    if !is_head(text) {
        return false;
    }
    let n = size_at(text, 0) as usize;
    let t = size_at(text, 6) as usize;
    is_body(text, n, t)
}

// ---- the floor

// Point i, at its place.
fn put_point(text: &[u8], i: usize, out: &mut [f64])
    requires { (19 * (1 + i) + 19 ≤ length text.now) × (3 * i + 3 ≤ length out.old) }
    ensures { out.new ≡ sets out.old (3 * i) (double_of (first text.now (1 + i)) ∷ double_of (second text.now (1 + i)) ∷ lit 0 ∷ []) }
{
    let a = 19 * (1 + i);
    let x = double_at(text, a);
    let y = double_at(text, a + 6);
    slices::copy(&[x, y, 0.0], out, 3 * i);
}

// Kept: put_points, put_angles and put_triangles differ in the step that they call; one loop would take it as a closure with clauses.
fn put_points(text: &[u8], n: usize, out: &mut [f64])
    requires { (19 * (1 + n) ≤ length text.now) × (3 * n ≤ length out.old) }
    ensures { out.new ≡ sets out.old 0 (points_up_to text.now n) }
{
    for i in 0..n {
        put_point(text, i, out);
    }
}

fn put_angle(text: &[u8], i: usize, out: &mut [f64])
    requires { (19 * (1 + i) + 19 ≤ length text.now) × (i < length out.old) }
    ensures { out.new ≡ sets out.old i (radians (third text.now (1 + i)) ∷ []) }
{
    let a = 19 * (1 + i) + 12;
    out[i] = radians_at(text, a);
}

fn put_angles(text: &[u8], n: usize, out: &mut [f64])
    requires { (19 * (1 + n) ≤ length text.now) × (n ≤ length out.old) }
    ensures { out.new ≡ sets out.old 0 (angles_up_to text.now n) }
{
    for i in 0..n {
        put_angle(text, i, out);
    }
}

fn put_triangle(text: &[u8], n: usize, i: usize, out: &mut [u32])
    requires { (19 * (1 + n + i) + 19 ≤ length text.now) × (3 * i + 3 ≤ length out.old) }
    ensures { out.new ≡ sets out.old (3 * i) (sizes_at text.now (1 + n + i)) }
{
    let a = 19 * (1 + n + i);
    let u = size_at(text, a);
    let v = size_at(text, a + 6);
    let w = size_at(text, a + 12);
    slices::copy(&[u, v, w], out, 3 * i);
}

fn put_triangles(text: &[u8], n: usize, t: usize, out: &mut [u32])
    requires { (19 * (1 + n + t) ≤ length text.now) × (3 * t ≤ length out.old) }
    ensures { out.new ≡ sets out.old 0 (corners_up_to text.now n t) }
{
    for i in 0..t {
        put_triangle(text, n, i, out);
    }
}

// The floor of a text.
fn put_floor(text: &[u8], points: &mut [f64], angles: &mut [f64], corners: &mut [u32]) -> Floor
    requires text_value { is_text text.now ≡ true }
    requires in_bounds { (768 ≤ length points.old) × ((256 ≤ length angles.old) × (768 ≤ length corners.old)) }
    ensures { ReadTo text.now points.old angles.old corners.old (Some result) points.new angles.new corners.new }
{
    let n = size_at(text, 0) as usize;
    let t = size_at(text, 6) as usize;
    put_points(text, n, points);
    put_angles(text, n, angles);
    put_triangles(text, n, t, corners);
    Floor {
        points: n,
        triangles: t,
        threshold: radians_at(text, 12),
    }
}

// The floor of a text, with room for 256 points and 256 triangles; none where the bytes are of another form.
pub fn read_floor(
    text: &[u8],
    points: &mut [f64],
    angles: &mut [f64],
    corners: &mut [u32],
) -> Option<Floor>
    requires { (768 ≤ length points.old) × ((256 ≤ length angles.old) × (768 ≤ length corners.old)) }
    ensures { ReadTo text.now points.old angles.old corners.old result points.new angles.new corners.new }
{
    if is_text(text) {
        return Some(put_floor(text, points, angles, corners));
    }
    None
}
