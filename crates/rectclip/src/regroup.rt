// Rings split and rejoined along a side, with their owners and results.
ghost use Rattle.std.specs.Prelude.{◌≡◌, ◌<◌};
ghost use Rattle.reference.specs.Tidy.{is_horz, cw_is_toward_larger, four_of, overlap, relink};
ghost use Rattle.rectclip.specs.Changes.{arena_of, pts_of, Leaves, Becomes};
ghost use Rattle.rectclip.specs.Turns.{four, FourIn, Fourth, joined, split, set_roots, Groups, regrouped};

use crate::arena::Arena;
use crate::side::Side;
use plane::direction::{has_horz_overlap, has_vert_overlap};

// The four nodes of a split or a rejoining along a side, the ends of two edges: the definition's `Four` with the side. That they are the arena's
// stays in the contracts (`FourIn`): a ghost field would need the number of nodes beside the four, and each contract that it is the arena's.
#[derive(Clone, Copy)]
pub(crate) struct Four {
    pub side: Side,
    pub p1: usize,
    pub p1a: usize,
    pub p2: usize,
    pub p2a: usize,
}

impl Arena<'_> {
    // The two entries and the nodes before them, in the order of the side.
    pub(crate) fn four_of(&self, side: Side, root1: usize, root2: usize) -> Four
        requires { (root1 < self.now.sizes.nodes) × (root2 < self.now.sizes.nodes) }
        ensures { Fourth self.now.sizes.nodes side result (four_of (cw_is_toward_larger side.idx) (arena_of self.now) root1 root2) }
    {
        let prev1 = self.prev_of(root1);
        let prev2 = self.prev_of(root2);
        if side.cw_is_toward_larger() {
            return Four {
                side,
                p1: prev1,
                p1a: root1,
                p2: root2,
                p2a: prev2,
            };
        }
        Four {
            side,
            p1: root1,
            p1a: prev1,
            p2: prev2,
            p2a: root2,
        }
    }

    // Whether the two edges overlap.
    pub(crate) fn overlap(&self, f: Four) -> bool
        requires { FourIn self.now.sizes.nodes f }
        ensures { result ≡ overlap (pts_of self.now) (is_horz f.side.idx) (four f) }
    {
        let p = self.point_of(f.p1);
        let q = self.point_of(f.p1a);
        let r = self.point_of(f.p2);
        let t = self.point_of(f.p2a);
        if f.side.is_horz() {
            return has_horz_overlap(p, q, r, t);
        }
        has_vert_overlap(p, q, r, t)
    }

    // "Do the split or re-join". Four writes each way: one form over which link is meant would hide which links change.
    pub(crate) fn relink(&mut self, f: Four)
        requires { FourIn self.old.sizes.nodes f }
        ensures { Leaves self.old self.new (relink (cw_is_toward_larger f.side.idx) (arena_of self.old) (four f)) }
    {
        let p1 = f.p1;
        let p1a = f.p1a;
        let p2 = f.p2;
        let p2a = f.p2a;
        if f.side.cw_is_toward_larger() {
            self.set_next(p1, p2);
            self.set_prev(p2, p1);
            self.set_prev(p1a, p2a);
            self.set_next(p2a, p1a);
            return;
        }
        self.set_prev(p1, p2);
        self.set_next(p2, p1);
        self.set_next(p1a, p2a);
        self.set_prev(p2a, p1a);
    }

    // The ring of p2 becomes a part of that of p1.
    pub(crate) fn join(&mut self, f: Four)
        requires { FourIn self.old.sizes.nodes f }
        ensures { Leaves self.old self.new (joined f.side.idx self.old.sizes.nodes (arena_of self.old) (four f)) }
    {
        let from = self.owner_of(f.p2);
        let to = self.owner_of(f.p1);
        self.set_result(from, None);
        self.set_new_owner(f.p2, to);
        self.relink(f);
    }

    // The ring of p1a is cut off: it is a result of its own.
    pub(crate) fn split(&mut self, f: Four)
        requires { FourIn self.old.sizes.nodes f × (self.old.sizes.results < self.old.sizes.slots) }
        ensures { Becomes self.old self.new (split f.side.idx self.old.sizes.nodes (arena_of self.old) (four f)) }
    {
        self.relink(f);
        let n = self.sizes.results;
        self.push_result(f.p1a);
        self.set_new_owner(f.p1a, n);
    }

    // The rings split or rejoined, with their owners and results.
    pub(crate) fn regroup(&mut self, f: Four, rejoining: bool)
        requires { FourIn self.old.sizes.nodes f × (self.old.sizes.results < self.old.sizes.slots) }
        ensures { Groups self.old self.new (regrouped f.side.idx self.old.sizes.nodes (arena_of self.old) (four f) rejoining) }
    {
        if rejoining {
            self.join(f);
            return;
        }
        self.split(f);
    }

    // The results of the rings of both nodes are those nodes. `op` and `op2` are no struct: each is looked up alone.
    pub(crate) fn set_roots(&mut self, op: usize, op2: usize)
        requires { (op < self.old.sizes.nodes) × (op2 < self.old.sizes.nodes) }
        ensures { Leaves self.old self.new (set_roots (arena_of self.old) op op2) }
    {
        let owner = self.owner_of(op);
        let owner2 = self.owner_of(op2);
        self.set_result(owner, Some(op));
        self.set_result(owner2, Some(op2));
    }
}
