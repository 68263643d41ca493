// Pairs of doubles: positions and differences of positions in the plane, with the Rust's operations on them.
#![tactic(auto)]

ghost use Rattle.std.specs.Prelude.{◌≡◌};
ghost use Rattle.plane.specs.Pair as Pairs;

#[derive(Clone, Copy)]
pub struct Pair {
    pub x: f64,
    pub y: f64,
}

pub fn sub2(a: Pair, b: Pair) -> Pair
    ensures { result ≡ Pairs.sub2 a b }
{
    Pair {
        x: a.x - b.x,
        y: a.y - b.y,
    }
}

pub fn dot2(a: Pair, b: Pair) -> f64
    ensures { result ≡ Pairs.dot2 a b }
{
    a.x * b.x + a.y * b.y
}

pub fn cross2(a: Pair, b: Pair) -> f64
    ensures { result ≡ Pairs.cross2 a b }
{
    a.x * b.y - a.y * b.x
}

// A quarter turn counter-clockwise.
pub fn rotate_90(a: Pair) -> Pair
    ensures { result ≡ Pairs.rotate90 a }
{
    Pair { x: -a.y, y: a.x }
}

pub fn scale2(a: Pair, factor: f64) -> Pair
    ensures { result ≡ Pairs.scale2 a factor }
{
    Pair {
        x: a.x * factor,
        y: a.y * factor,
    }
}

// Twice the signed area of a triangle.
pub fn twice_signed_area(corners: [Pair; 3]) -> f64
    ensures { result ≡ Pairs.orientation_of corners }
{
    let a = corners[0];
    cross2(sub2(corners[1], a), sub2(corners[2], a))
}
