// Rings of nodes: a node taken out, and points on a line with their neighbours dropped.
ghost use Rattle.std.specs.Prelude.{◌≡◌, ◌<◌, ◌+◌, ◌*◌};
ghost use Rattle.reference.specs.Arena.{next_of, is_flat, drop_collinear_pass, drop_collinear};
ghost use Rattle.reference.specs.Tidy.{is_stub};
ghost use Rattle.reference.specs.Clip.{straighten_pass, straighten};
ghost use Rattle.rectclip.specs.Changes.{arena_of, pts_of};
ghost use Rattle.rectclip.specs.Rings.{Unlinked, Passed, Dropped, EndsAt};

use crate::arena::Arena;
use crate::segment::is_collinear;

// The nodes on both sides of one that was taken out of its ring.
#[derive(Clone, Copy)]
pub(crate) struct Neighbours {
    pub prev: usize,
    pub next: usize,
}

// Where a loop that goes round a ring is: it ends at `op`, and `op2` is the node that comes next, or gone where nothing is left of the ring.
#[derive(Clone, Copy)]
pub(crate) struct RingPlace {
    pub op: usize,
    pub op2: Option<usize>,
}

impl Arena<'_> {
    // `unlink_op` and `unlink_op_back` in one: the node is taken out of its ring, and both neighbours are handed back, if it has any.
    pub(crate) fn unlink(&mut self, op: usize) -> Option<Neighbours>
        requires { op < self.old.sizes.nodes }
        ensures { Unlinked self.old self.new op result }
    {
        let next = self.next_of(op);
        if next == op {
            return None;
        }
        let prev = self.prev_of(op);
        self.set_next(prev, next);
        self.set_prev(next, prev);
        Some(Neighbours { prev, next })
    }

    // Whether the ring of the node has one or two nodes: `next == prev`.
    pub(crate) fn is_stub(&self, op: usize) -> bool
        requires { op < self.now.sizes.nodes }
        ensures { result ≡ is_stub (arena_of self.now) op }
    {
        self.next_of(op) == self.prev_of(op)
    }

    // Whether the node is on a line with its neighbours.
    pub(crate) fn is_flat(&self, op: usize) -> bool
        requires { op < self.now.sizes.nodes }
        ensures { result ≡ is_flat (pts_of self.now) (arena_of self.now) op }
    {
        let prev = self.prev_of(op);
        let next = self.next_of(op);
        is_collinear(self.point_of(prev), self.point_of(op), self.point_of(next))
    }

    // One pass of "Remove collinear points". A pass, here and below, is of a ring that is left: it is given two nodes, and no `RingPlace`.
    pub(crate) fn drop_collinear_pass(&mut self, op: usize, op2: usize) -> RingPlace
        requires { (op < self.old.sizes.nodes) × (op2 < self.old.sizes.nodes) }
        ensures { Passed self.old self.new result (drop_collinear_pass (pts_of self.old) (arena_of self.old) op op2) }
    {
        if !self.is_flat(op2) {
            let next = self.next_of(op2);
            return RingPlace {
                op,
                op2: Some(next),
            };
        }
        let Some(sides) = self.unlink(op2) else {
            return RingPlace { op, op2: None };
        };
        let back = sides.prev;
        if op2 == op {
            let before = self.prev_of(back);
            return RingPlace {
                op: before,
                op2: Some(back),
            };
        }
        RingPlace {
            op,
            op2: Some(back),
        }
    }

    // "Remove collinear points" of the ring of `start`: where the loop ends, if anything of the ring is left.
    pub(crate) fn drop_collinear(&mut self, start: usize) -> Option<usize>
        requires { start < self.old.sizes.nodes }
        ensures { Dropped self.old self.new result (drop_collinear (pts_of self.old) (2 * self.old.sizes.nodes + 1) (arena_of self.old) start start) }
    {
        let mut op = start;
        let mut op2 = start;
        for _pass in 0..2 * self.sizes.nodes + 1 {
            let at = self.drop_collinear_pass(op, op2);
            op = at.op;
            op2 = at.op2?;
            if op2 == op {
                return Some(op);
            }
        }
        Some(op)
    }

    // One pass of the first loop of `get_path`. It goes on from a dropped node as `drop_collinear_pass` does not, to the node after it: one
    // function of both would ask which is meant at each of its returns but the first.
    pub(crate) fn straighten_pass(&mut self, op: usize, op2: usize) -> RingPlace
        requires { (op < self.old.sizes.nodes) × (op2 < self.old.sizes.nodes) }
        ensures { Passed self.old self.new result (straighten_pass (pts_of self.old) (arena_of self.old) op op2) }
    {
        if !self.is_flat(op2) {
            let next = self.next_of(op2);
            return RingPlace {
                op,
                op2: Some(next),
            };
        }
        let before = self.prev_of(op2);
        let sides = self.unlink(op2);
        RingPlace {
            op: before,
            op2: sides.map(|at| at.next),
        }
    }

    // The first loop of `get_path`, from the node `start` on: where it ends, if anything of the ring is left.
    pub(crate) fn straighten(&mut self, start: usize) -> Option<usize>
        requires { start < self.old.sizes.nodes }
        ensures { EndsAt self.old self.new result (straighten (pts_of self.old) (self.old.sizes.nodes * self.old.sizes.nodes) (arena_of self.old) start (next_of (arena_of self.old) start)) }
    {
        let mut op = start;
        let mut op2 = self.next_of(start);
        let n = self.sizes.nodes;
        for _pass in 0..n * n {
            if op2 == op {
                return Some(op2);
            }
            let at = self.straighten_pass(op, op2);
            op = at.op;
            op2 = at.op2?;
        }
        Some(op2)
    }
}
