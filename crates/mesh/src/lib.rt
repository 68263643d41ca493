// The theory of refinement; its code here is three small functions, and refinement::split_triangle is what splits. specs/Mesh.antt defines which sides are
// cut and the pieces of a triangle; specs/Claim.antt claims that no side is lost and none cracks (proofs/Theorem.antt). specs/Points.antt has the points and
// sizes of a refined floor in floating point, specs/Area.antt exact areas on whole coordinates, specs/AreaClaim.antt what is proved of them: old points stay,
// midpoints are exact, and the pieces of each triangle have its area.
#![tactic(auto)]

ghost use Rattle.std.specs.Prelude.{◌≡◌, ◌+◌, ◌≤◌, length};
ghost use Rattle.mesh.specs.Mesh.{corners_at};
ghost use Rattle.mesh.specs.Area.{halfway};

// The corners of a triangle: three numbers of points.
#[derive(Clone, Copy)]
pub struct ThreeCorners {
    pub a: u32,
    pub b: u32,
    pub c: u32,
}

// A point's number as an index.
pub fn index(point: u32) -> usize
    ensures { result ≡ point }
{
    point as usize
}

// The corners that a list holds from `at` on.
pub fn corners(list: &[u32], at: usize) -> ThreeCorners
    requires { at + 3 ≤ length list.now }
    ensures { result ≡ corners_at list.now at }
{
    ThreeCorners {
        a: list[at],
        b: list[at + 1],
        c: list[at + 2],
    }
}

// Half the sum: a midpoint's coordinate from those of its ends, and its size from theirs.
pub fn half_sum(x: f64, y: f64) -> f64
    ensures { result ≡ halfway x y }
{
    0.5 * (x + y)
}
