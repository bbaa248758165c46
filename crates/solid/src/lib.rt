//! Points, vectors, the dot product and the signed volume.
//! These functions are for the crates above: they ask that coordinates are small, which the drawing checks establish.
#![tactic(auto)]

ghost use Rattle.std.specs.Prelude.{◌≡◌, ◌≤◌, nat_abs};
ghost use Rattle.solid.specs.Points.{Near, Far, between, place, dot, volume};
ghost use Rattle.solid.specs.Limits.{greatest_dot, greatest_volume};

/// A point, in whole millimetres.
// That it is near is said in clauses too: one of a raw table may lie anywhere.
#[derive(Clone, Copy, PartialEq, Eq, Default)]
pub struct Point {
    pub x: i64,
    pub y: i64,
    pub z: i64,
}

/// A difference of two points.
// How large its coordinates are is said in clauses, and not by its type: who writes one by its fields owes nothing.
#[derive(Clone, Copy)]
pub struct Vector {
    pub x: i64,
    pub y: i64,
    pub z: i64,
}

impl Vector {
    /// From `p` to `q`.
    pub fn between(p: Point, q: Point) -> Self
        requires { (Near p) × (Near q) }
        ensures is { result ≡ between p q }
        ensures far { Far result }
    {
        Vector {
            x: q.x - p.x,
            y: q.y - p.y,
            z: q.z - p.z,
        }
    }

    /// From the origin to `p`.
    pub fn place(p: Point) -> Self
        requires { Near p }
        ensures is { result ≡ place p }
        ensures far { Far result }
    {
        Vector {
            x: p.x,
            y: p.y,
            z: p.z,
        }
    }
}

/// The sum of the products of the coordinates.
pub fn dot(u: Vector, v: Vector) -> i64
    requires { (Far u) × (Far v) }
    ensures is { result ≡ dot u v }
    ensures bound { nat_abs result ≤ greatest_dot }
{
    u.x * v.x + u.y * v.y + u.z * v.z
}

/// The determinant whose rows are `u`, `v` and `w`.
pub fn volume(u: Vector, v: Vector, w: Vector) -> i64
    requires { (Far u) × ((Far v) × (Far w)) }
    ensures is { result ≡ volume u v w }
    ensures bound { nat_abs result ≤ greatest_volume }
{
    u.x * (v.y * w.z - v.z * w.y) + u.y * (v.z * w.x - v.x * w.z) + u.z * (v.x * w.y - v.y * w.x)
}
