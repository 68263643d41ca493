// The floor of a pass, laid out in its work slice: a plane each of x, y, sizes and guidance angles, of the points as given and then of the midpoints of the
// cut sides, which stand in a table of crate edges. The first pass has no cut sides. specs/Planes.antt says what stands in each plane.
ghost use Rattle.std.specs.Prelude.{◌≡◌, ◌+◌, ◌*◌, ◌/◌, ◌<◌, ◌≤◌, length, get_or, set};
ghost use Rattle.std.specs.Float.{nan};
ghost use Rattle.linear_cells.specs.Region.{put};
ghost use Rattle.edges.specs.Table.{end_of, cuts_in};
ghost use Rattle.pass_floor.specs.Planes.{midway_at, coordinate_at, coordinate_plane, PointsIn, CoordinateRoom};
ghost use Rattle.pass_floor.specs.Planes.{cut_at, mean_of, mean_on, value_plane, ValueRoom};

use edges::Table;

// Kept: k is no kind, but where a coordinate stands in a point's three numbers.
// x of point v as given where k is 0, and y where it is 1.
fn given(points: &[f64], k: usize, v: u32) -> f64
    requires { k < 2 }
    ensures { result ≡ get_or points.now (3 * v + k) nan }
{
    floor::read(points, 3 * mesh::index(v) + k)
}

// The same of the midpoint of cut side j.
fn midway(points: &[f64], numbers: &[u32], table: Table, k: usize, j: usize) -> f64
    requires { PointsIn (length points.now) table k (length numbers.now) × (j < table.sides) }
    ensures { result ≡ midway_at points.now table numbers.now k j }
{
    let at = edges::row(table, j);
    mesh::half_sum(
        given(points, k, numbers[at]),
        given(points, k, numbers[at + 1]),
    )
}

// The same of point v of the refined floor.
fn coordinate(points: &[f64], numbers: &[u32], table: Table, k: usize, v: usize) -> f64
    requires { PointsIn (length points.now) table k (length numbers.now) × (v < length points.now / 3 + table.sides) }
    ensures { result ≡ coordinate_at points.now (cuts_in table numbers.now) k v }
{
    let n = points.len() / 3;
    if v < n {
        return floor::read(points, 3 * v + k);
    }
    midway(points, numbers, table, k, v - n)
}

fn coordinate_step(
    points: &[f64],
    numbers: &[u32],
    table: Table,
    k: usize,
    work: &mut [f64],
    at: usize,
    v: usize,
)
    requires { CoordinateRoom (length points.now) table k (length numbers.now) at (length work.old) × (v < length points.now / 3 + table.sides) }
    ensures { work.new ≡ set work.old (at + v) (coordinate_at points.now (cuts_in table numbers.now) k v) }
{
    let x = coordinate(points, numbers, table, k, v);
    linear_cells::store_real(work, at, v, x);
}

// The plane of x, where k is 0, or of y, where it is 1, from `at` on.
pub fn put_plane(
    points: &[f64],
    numbers: &[u32],
    table: Table,
    k: usize,
    work: &mut [f64],
    at: usize,
)
    requires { CoordinateRoom (length points.now) table k (length numbers.now) at (length work.old) }
    ensures { work.new ≡ put work.old at (coordinate_plane points.now (cuts_in table numbers.now) k) }
{
    let count = points.len() / 3 + table.sides;
    for v in 0..count {
        coordinate_step(points, numbers, table, k, work, at, v);
    }
}

// Kept: which mean a plane takes is an enum, by which the definition `value_plane` says it; as a closure it would be a law in three contracts.
// What a midpoint gets from the values at the ends of its side: half their sum, as its size, or the angle between them, as its guidance.
#[derive(Clone, Copy)]
pub enum Mean {
    Half,
    Angle,
}

fn between(kind: Mean, a: f64, b: f64) -> f64
    ensures { result ≡ mean_of kind a b }
{
    match kind {
        Mean::Half => mesh::half_sum(a, b),
        Mean::Angle => complex::guidance::mid_angle(a, b),
    }
}

// The value at the midpoint of cut side j.
fn mean_on(values: &[f64], numbers: &[u32], table: Table, kind: Mean, j: usize) -> f64
    requires { (end_of table ≤ length numbers.now) × (j < table.sides) }
    ensures { result ≡ mean_on kind values.now (cut_at table numbers.now j) }
{
    let at = edges::row(table, j);
    let a = floor::read(values, mesh::index(numbers[at]));
    let b = floor::read(values, mesh::index(numbers[at + 1]));
    between(kind, a, b)
}

// The value at point v of the refined floor.
fn value(values: &[f64], numbers: &[u32], table: Table, kind: Mean, v: usize) -> f64
    requires { (end_of table ≤ length numbers.now) × (v < length values.now + table.sides) }
    ensures { result ≡ get_or (value_plane kind values.now (cuts_in table numbers.now)) v nan }
{
    let n = values.len();
    if v < n {
        return values[v];
    }
    mean_on(values, numbers, table, kind, v - n)
}

fn value_step(
    values: &[f64],
    numbers: &[u32],
    table: Table,
    kind: Mean,
    work: &mut [f64],
    at: usize,
    v: usize,
)
    requires { ValueRoom (length values.now) table (length numbers.now) at (length work.old) × (v < length values.now + table.sides) }
    ensures { work.new ≡ set work.old (at + v) (get_or (value_plane kind values.now (cuts_in table numbers.now)) v nan) }
{
    let x = value(values, numbers, table, kind, v);
    linear_cells::store_real(work, at, v, x);
}

// The plane of one value for each point, from `at` on.
pub fn put_values(
    values: &[f64],
    numbers: &[u32],
    table: Table,
    kind: Mean,
    work: &mut [f64],
    at: usize,
)
    requires { ValueRoom (length values.now) table (length numbers.now) at (length work.old) }
    ensures { work.new ≡ put work.old at (value_plane kind values.now (cuts_in table numbers.now)) }
{
    let count = values.len() + table.sides;
    for v in 0..count {
        value_step(values, numbers, table, kind, work, at, v);
    }
}
