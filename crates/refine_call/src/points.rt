// The points and sizes of a refined floor, from the ends of the cut sides.
ghost use Rattle.std.specs.Prelude.{◌≡◌, ◌+◌, ◌*◌, ◌<◌, ◌≤◌, length};
ghost use Rattle.std.proofs.lemmas.List.Edits.{sets};
ghost use Rattle.mesh.specs.Mesh.{side};
ghost use Rattle.mesh.specs.Points.{x_of, y_of, midpoint, midpoints, mid_size, mid_sizes, more_points, more_sizes};
ghost use Rattle.edges.specs.TwoSlices.{lo_at, hi_at, sides_at};

fn x_of(points: &[f64], v: u32) -> f64
    ensures { result ≡ x_of points.now v }
{
    floor::read(points, 3 * mesh::index(v))
}

// Kept: x and y are functions of their own, since the definitions that they equal are.
fn y_of(points: &[f64], v: u32) -> f64
    ensures { result ≡ y_of points.now v }
{
    floor::read(points, 3 * mesh::index(v) + 1)
}

// The midpoint of side k, from `at` on.
fn put_midpoint(points: &[f64], ends: &[u32], k: usize, out: &mut [f64], at: usize)
    requires { (2 * k + 2 ≤ length ends.now) × (at + 3 ≤ length out.old) }
    ensures { out.new ≡ sets out.old at (midpoint points.now (side (lo_at ends.now k) (hi_at ends.now k))) }
{
    let u = ends[2 * k];
    let v = ends[2 * k + 1];
    let x = mesh::half_sum(x_of(points, u), x_of(points, v));
    let y = mesh::half_sum(y_of(points, u), y_of(points, v));
    slices::copy(&[x, y, 0.0], out, at);
}

// Kept: points and sizes, here and below, differ in how many numbers a side stores; one function would take the store as a closure with clauses.
// The midpoints of the first `count` sides, from `at` on.
fn put_midpoints(points: &[f64], ends: &[u32], count: usize, out: &mut [f64], at: usize)
    requires { (2 * count ≤ length ends.now) × (at + 3 * count ≤ length out.old) }
    ensures { out.new ≡ sets out.old at (midpoints points.now (sides_at ends.now count)) }
{
    for k in 0..count {
        put_midpoint(points, ends, k, out, at + 3 * k);
    }
}

// The points of the refined floor.
pub fn put_points(points: &[f64], ends: &[u32], count: usize, out: &mut [f64])
    requires { (2 * count ≤ length ends.now) × (length points.now + 3 * count ≤ length out.old) }
    ensures { out.new ≡ sets out.old 0 (more_points points.now (sides_at ends.now count)) }
{
    slices::copy(points, out, 0);
    put_midpoints(points, ends, count, out, points.len());
}

// The size at the midpoint of side k.
fn mid_size(sizes: &[f64], ends: &[u32], k: usize) -> f64
    requires { 2 * k + 2 ≤ length ends.now }
    ensures { result ≡ mid_size sizes.now (side (lo_at ends.now k) (hi_at ends.now k)) }
{
    let u = floor::read(sizes, mesh::index(ends[2 * k]));
    let v = floor::read(sizes, mesh::index(ends[2 * k + 1]));
    mesh::half_sum(u, v)
}

// The sizes at the midpoints of the first `count` sides, from `at` on.
fn put_mid_sizes(sizes: &[f64], ends: &[u32], count: usize, out: &mut [f64], at: usize)
    requires { (2 * count ≤ length ends.now) × (at + count ≤ length out.old) }
    ensures { out.new ≡ sets out.old at (mid_sizes sizes.now (sides_at ends.now count)) }
{
    for k in 0..count {
        out[at + k] = mid_size(sizes, ends, k);
    }
}

// The sizes of the refined floor.
pub fn put_sizes(sizes: &[f64], ends: &[u32], count: usize, out: &mut [f64])
    requires { (2 * count ≤ length ends.now) × (length sizes.now + count ≤ length out.old) }
    ensures { out.new ≡ sets out.old 0 (more_sizes sizes.now (sides_at ends.now count)) }
{
    slices::copy(sizes, out, 0);
    put_mid_sizes(sizes, ends, count, out, sizes.len());
}
