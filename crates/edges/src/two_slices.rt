// A table of sides in two slices: `ends` has the lower and the upper end of each side and nothing else, `links` the buckets, from the table's base on, and two
// links of each side. So the ends can stand where a caller wants them (specs/TwoSlices.antt).
// Kept: one generic over where the rows stand would need a trait of four reads and a write, with laws, and views of each table for & and &mut: more than the copies.
ghost use Rattle.std.specs.Prelude.{◌≡◌, ◌+◌, ◌*◌, ◌<◌, ◌≤◌, ◌^◌, length, IfSome};
ghost use Rattle.mesh.specs.Mesh.{side, key, tri, index_in};
ghost use Rattle.edges.specs.Table.{place};
ghost use Rattle.edges.specs.TwoSlices.{sides_at, under_at, HeldInTwo, WalkedInTwo, MetInTwo, MetTriInTwo};

use crate::{Meeting, Meetings, Spot, Table};

// The walk to the side a b.
fn walk(ends: &[u32], links: &[u32], t: Table, a: u32, b: u32) -> Spot
    requires { HeldInTwo t.base t.buckets ends.now links.now t.sides }
    ensures { WalkedInTwo t.base t.buckets ends.now links.now t.sides a b result.at result.position }
{
    let mut position = t.base + crate::slot(t.buckets, a, b);
    let mut rest = crate::path(a, b);
    let mut at = crate::held(links[position]);
    while let Some(number) = at {
        let k = 2 * number;
        if crate::same_side(ends[k], ends[k + 1], a, b) {
            return Spot { at, position };
        }
        position = t.base + t.buckets + k + rest % 2;
        rest = rest / 2;
        at = crate::held(links[position]);
    }
    Spot { at, position }
}

// The number of the side of u and v, if it is there.
pub fn find_side(ends: &[u32], links: &[u32], t: Table, u: u32, v: u32) -> Option<usize>
    requires { HeldInTwo t.base t.buckets ends.now links.now t.sides }
    ensures { (place result ≡ index_in (key u v) (sides_at ends.now t.sides)) × IfSome result (λ k. k < t.sides) }
{
    if u < v {
        let s = walk(ends, links, t, u, v);
        return s.at;
    }
    let s = walk(ends, links, t, v, u);
    s.at
}

// The side a b, lower end first, is found or put into the table.
fn find_or_insert(ends: &mut [u32], links: &mut [u32], t: Table, a: u32, b: u32) -> Meeting
    requires held_in_two { HeldInTwo t.base t.buckets ends.old links.old t.sides }
    requires sides_in_bounds { (2 * t.sides + 2 ≤ length ends.old) × ((under_at t.base t.buckets t.sides + 2 ≤ length links.old) × (t.sides + 1 < 2 ^ 32)) }
    ensures { MetInTwo t.base t.buckets ends.old links.old t.sides
        ends.new links.new result.sides result.number (side a b) }
{
    let s = walk(ends, links, t, a, b);
    let m = t.sides;
    if let Some(number) = s.at {
        return Meeting { sides: m, number };
    }
    let position = s.position;
    let k = t.base + t.buckets + 2 * m;
    ends[2 * m] = a;
    ends[2 * m + 1] = b;
    links[k] = 0;
    links[k + 1] = 0;
    links[position] = (m + 1) as u32;
    Meeting {
        sides: m + 1,
        number: m,
    }
}

// The side of u and v is met.
pub fn meet_side(ends: &mut [u32], links: &mut [u32], t: Table, u: u32, v: u32) -> Meeting
    requires held_in_two { HeldInTwo t.base t.buckets ends.old links.old t.sides }
    requires sides_in_bounds { (2 * t.sides + 2 ≤ length ends.old) × ((under_at t.base t.buckets t.sides + 2 ≤ length links.old) × (t.sides + 1 < 2 ^ 32)) }
    ensures { MetInTwo t.base t.buckets ends.old links.old t.sides
        ends.new links.new result.sides result.number (key u v) }
{
    if u < v {
        return find_or_insert(ends, links, t, u, v);
    }
    find_or_insert(ends, links, t, v, u)
}

// The sides a b, b c and c a of a triangle are met.
pub fn meet_triangle(
    ends: &mut [u32],
    links: &mut [u32],
    t: Table,
    a: u32,
    b: u32,
    c: u32,
) -> Meetings
    requires held_in_two { HeldInTwo t.base t.buckets ends.old links.old t.sides }
    requires sides_in_bounds { (2 * t.sides + 6 ≤ length ends.old) × ((under_at t.base t.buckets t.sides + 6 ≤ length links.old) × (t.sides + 3 < 2 ^ 32)) }
    ensures { MetTriInTwo t.base t.buckets ends.old links.old t.sides
        ends.new links.new result.sides result.ab result.bc result.ca (tri a b c) }
{
    let p = meet_side(ends, links, t, a, b);
    let after = Table {
        sides: p.sides,
        ..t
    };
    let q = meet_side(ends, links, after, b, c);
    let last = Table {
        sides: q.sides,
        ..t
    };
    let r = meet_side(ends, links, last, c, a);
    Meetings {
        sides: r.sides,
        ab: p.number,
        bc: q.number,
        ca: r.number,
    }
}
