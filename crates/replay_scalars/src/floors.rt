// Rows that hold a small floor: counts first, then the answer, the angles, the points and the corners, each at its own place.
ghost use Rattle.std.specs.Prelude.{◌≡◌};
ghost use Rattle.replay_scalars.specs.Floors.{same_probe, probe_on, probe_row, same_singular, singular_on, singular_row};

use probe::ProbeError;
use replay::rows::{corners, count, double, doubles, same};
use singularities::{Counts, NotTriples};

// Whether the answer is the one recorded: 1 not of whole triples, 2 no angle, 3 too large, or 4 and the angle.
fn same_probe(row: &[u8], answer: Result<f64, ProbeError>) -> bool
    ensures { result ≡ same_probe row.now answer }
{
    let kind = replay::word(row, 5);
    match answer {
        Ok(angle) => kind == 4 && same(angle, double(row, 6)),
        Err(error) => kind == u64::from(u32::from(error)),
    }
}

// The counts of angles, point numbers and corners, and the question point.
fn ask_probe(row: &[u8], alpha: &[f64], points: &[f64], tris: &[u32]) -> bool
    ensures { result ≡ probe_on row.now alpha.now points.now tris.now }
{
    let n = count(row, 0, alpha.len());
    let p = count(row, 1, points.len());
    let t = count(row, 2, tris.len());
    let x = double(row, 3);
    let y = double(row, 4);
    same_probe(
        row,
        probe::interp_angle(&alpha[0..n], &points[0..p], &tris[0..t], x, y),
    )
}

// The row of a probe: at 7 the angles, at 15 the points, at 39 the corners.
pub fn probe(row: &[u8]) -> bool
    ensures { result ≡ probe_row row.now }
{
    let mut alpha = [0.0; 8];
    let mut points = [0.0; 24];
    let mut tris = [0u32; 18];
    doubles(row, 7, 8, &mut alpha);
    doubles(row, 15, 24, &mut points);
    corners(row, 39, 18, &mut tris);
    ask_probe(row, &alpha, &points, &tris)
}

// Whether the answer is the one recorded: 0 and the two counts, or 1.
fn same_singular(row: &[u8], answer: Result<Counts, NotTriples>) -> bool
    ensures { result ≡ same_singular row.now answer }
{
    let number = replay::word(row, 2);
    match answer {
        Ok(counts) => {
            number == 0
                && counts.valence_3 as u64 == replay::word(row, 3)
                && counts.valence_5 as u64 == replay::word(row, 4)
        }
        Err(NotTriples) => number == 1,
    }
}

// The counts of angles and corners.
fn ask_singular(row: &[u8], alpha: &[f64], tris: &[u32]) -> bool
    ensures { result ≡ singular_on row.now alpha.now tris.now }
{
    let n = count(row, 0, alpha.len());
    let t = count(row, 1, tris.len());
    same_singular(
        row,
        singularities::count_singularities(&alpha[0..n], &tris[0..t]),
    )
}

// The row of a count of singularities: at 5 the angles, at 13 the corners.
pub fn singular(row: &[u8]) -> bool
    ensures { result ≡ singular_row row.now }
{
    let mut alpha = [0.0; 8];
    let mut tris = [0u32; 18];
    doubles(row, 5, 8, &mut alpha);
    corners(row, 13, 18, &mut tris);
    ask_singular(row, &alpha, &tris)
}
