// The lent lists: fixed memory, lent by the caller, since there is no heap. So nodes are indices, and sizes stand beside the lists (`Sizes`, `WalkState`).
// The store holds points, x then y; the work list holds slots of sixteen fields. They are read and written here, but that next.rt reads one
// coordinate of a point, pieces.rt takes a path whole, and call.rt clears both lists.
ghost use Rattle.std.specs.Prelude.{◌≡◌, ◌+◌, ◌*◌, ◌<◌, length};
ghost use Rattle.plane.specs.Points.{pt_at, points_of};
ghost use Rattle.rectclip.specs.Memory.{at, put, put_point};

use plane::point::Point64;

// The mark outside every index: the Rust's `None` and `usize::MAX`.
pub(crate) const NONE: usize = 4294967295;

// The fields of a slot, by their offsets in it: a node's links, owner and edge; a result; a start side; from EDGES on, the eight edge lists.
pub(crate) const NEXT: usize = 0;

pub(crate) const PREV: usize = 1;

pub(crate) const OWNER: usize = 2;

pub(crate) const EDGE: usize = 3;

pub(crate) const RESULT: usize = 4;

pub(crate) const START_LOC: usize = 5;

pub(crate) const EDGES: usize = 8;

// What field `k` of slot `i` holds.
pub(crate) fn get(work: &[u32], k: usize, i: usize) -> usize
    requires { 16 * i + k < length work.now }
    ensures { result ≡ at k work.now i }
{
    work[16 * i + k] as usize
}

// Field `k` of slot `i` is `v` from now on.
pub(crate) fn put(work: &mut [u32], k: usize, i: usize, v: usize)
    requires { (16 * i + k < length work.old) × (v < 4294967296) }
    ensures { work.new ≡ put k work.old i v }
{
    work[16 * i + k] = v as u32;
}

// The point at position `i` of a list of coordinates.
pub(crate) fn point_at(list: &[i64], i: usize) -> Point64
    requires { 2 * i + 1 < length list.now }
    ensures { result ≡ pt_at (points_of list.now) i }
{
    Point64 {
        x: list[2 * i],
        y: list[2 * i + 1],
    }
}

// The point at position `i` is `p` from now on.
pub(crate) fn put_point(list: &mut [i64], i: usize, p: Point64)
    requires { 2 * i + 1 < length list.old }
    ensures { list.new ≡ put_point list.old i p }
{
    list[2 * i] = p.x;
    list[2 * i + 1] = p.y;
}
