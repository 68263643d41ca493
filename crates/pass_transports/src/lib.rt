// The transport coefficient of every edge of a pass, in a vector of the work slice, up to the first edge whose mean size is refused, which is refusal 22.
// specs/Transports.antt says what they are, and specs/Work.antt how the slice holds them.
#![tactic(auto)]

ghost use Rattle.std.specs.Prelude.{◌≡◌, ◌+◌, ◌<◌, length, is_ok, IfErr};
ghost use Rattle.pass_transports.specs.Transports.{end_of, transport_at, ends_at};
ghost use Rattle.pass_transports.specs.Work.{points_from, TransportsRoom, Ends, Looked, Transported};

use complex::Complex;
use geometry::{End, MeanSize};

// Where the points stand: their coordinates, sizes and gradients, the gradients' first parts and then their second; and where the coefficients go.
#[derive(Clone, Copy)]
pub struct TransportsPlan {
    pub points: usize,
    pub x: usize,
    pub y: usize,
    pub sizes: usize,
    pub gradients: usize,
    pub transports: usize,
}

// Point v as an edge's end.
fn end_at(w: &[f64], l: TransportsPlan, v: usize) -> End
    requires { TransportsRoom (length w.now) l 0 × (v < l.points) }
    ensures { result ≡ end_of (points_from w.now l) v }
{
    let position = pass_geometries::position(w, l.x, l.y, v);
    let gradient = pass_geometries::position(w, l.gradients, l.gradients + l.points, v);
    let size = linear_cells::load_real(w, l.sizes, v);
    End {
        vertex: v,
        position,
        size,
        gradient,
    }
}

// Edge e's coefficient, or its refusal.
fn transport_at(
    w: &[f64],
    l: TransportsPlan,
    from: &[u32],
    to: &[u32],
    e: usize,
) -> Result<Complex, MeanSize>
    requires transports_room { TransportsRoom (length w.now) l 0 × (e < length from.now) }
    requires ends { Ends l.points from.now to.now }
    ensures { result ≡ transport_at (points_from w.now l) from.now to.now e }
{
    let a = end_at(w, l, mesh::index(from[e]));
    let b = end_at(w, l, mesh::index(to[e]));
    geometry::transport_coefficient(a, b)
}

// Looks at edge e: its coefficient is kept, where it has one.
fn look(
    w: &mut [f64],
    l: TransportsPlan,
    from: &[u32],
    to: &[u32],
    e: usize,
) -> Result<(), MeanSize>
    requires transports_room { TransportsRoom (length w.old) l (length from.now) × (e < length from.now) }
    requires ends { Ends l.points from.now to.now }
    ensures looked { Looked l from.now to.now e w.old w.new (is_ok result) }
    ensures refused { IfErr result (λ x. x ≡ ends_at from.now to.now e) }
{
    let z = transport_at(w, l, from, to, e)?;
    linear_cells::store(w, l.transports, from.len(), e, z);
    Ok(())
}

// The coefficients of the edges from `from` to `to`, up to the first that row 22 refuses, which is the error: its lower and its upper end.
pub fn transports(
    w: &mut [f64],
    l: TransportsPlan,
    from: &[u32],
    to: &[u32],
) -> Result<(), MeanSize>
    requires transports_room { TransportsRoom (length w.old) l (length from.now) }
    requires ends { Ends l.points from.now to.now }
    ensures { Transported l from.now to.now w.old w.new result }
{
    for e in 0..from.len() {
        look(w, l, from, to, e)?;
    }
    Ok(())
}
