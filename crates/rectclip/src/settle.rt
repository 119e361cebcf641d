// The entries of a side after a split or a rejoining: "Get ready for the next loop".
ghost use Rattle.std.specs.Prelude.{◌≡◌, ◌<◌, IfSome, get_or};
ghost use Rattle.std.specs.Bool.{beq};
ghost use Rattle.reference.specs.Arena.{add_to_edge, uncouple_edge};
ghost use Rattle.reference.specs.Tidy.{cw_is_toward_larger, is_larger, is_spent, keep_one, keep_both, keep_each, settle};
ghost use Rattle.rectclip.specs.Arenas.{mark};
ghost use Rattle.rectclip.specs.Changes.{arena_of, pts_of, Leaves};
ghost use Rattle.rectclip.specs.Turns.{Entries, put_entry, Settling, Settled, Moves};

use crate::arena::Arena;
use crate::side::{EdgeList, Side};

// What a turn hands to the next: the side, and how far its two lists are worked off.
#[derive(Clone, Copy)]
pub(crate) struct Turn {
    pub side: Side,
    pub i: usize,
    pub j: usize,
}

impl Arena<'_> {
    // Whether the node is at the larger coordinate of its edge.
    pub(crate) fn is_larger(&self, side: Side, op: usize) -> bool
        requires { op < self.now.sizes.nodes }
        ensures { result ≡ is_larger (pts_of self.now) side.idx (arena_of self.now) op }
    {
        let prev = self.prev_of(op);
        let p = self.point_of(prev);
        let q = self.point_of(op);
        if side.is_horz() { p.x < q.x } else { p.y < q.y }
    }

    // No length is left before the node, or it is in a stub.
    pub(crate) fn is_spent(&self, op: usize) -> bool
        requires { op < self.now.sizes.nodes }
        ensures { result ≡ is_spent (pts_of self.now) 0 (arena_of self.now) op }
    {
        if self.is_stub(op) {
            return true;
        }
        let prev = self.prev_of(op);
        let p = self.point_of(prev);
        let q = self.point_of(op);
        q == p
    }

    // Whether the node belongs to the clockwise list of the side.
    pub(crate) fn is_clockwise(&self, side: Side, op: usize) -> bool
        requires { op < self.now.sizes.nodes }
        ensures { result ≡ beq (is_larger (pts_of self.now) side.idx (arena_of self.now) op) (cw_is_toward_larger side.idx) }
    {
        let larger = self.is_larger(side, op);
        let toward = side.cw_is_toward_larger();
        larger == toward
    }

    // The node's entry in one of the two lists of the side, at the turn's place: the clockwise one, or the other.
    // `Entries` stays in the contracts here and below: it is of the arena and a turn at once, and a turn's place may lie past the lists' ends.
    pub(crate) fn put_entry(&mut self, at: Turn, v: Option<usize>, clockwise: bool)
        requires { Entries self.old at × IfSome v (λ op. op < self.old.sizes.nodes) }
        ensures { Leaves self.old self.new (put_entry at.side.idx (arena_of self.old) at.i at.j (mark v) clockwise) }
    {
        if clockwise {
            self.set_entry(at.side.cw(), at.i, v);
            return;
        }
        self.set_entry(at.side.ccw(), at.j, v);
    }

    // One of the two entries stays, for `op`; the other is struck out.
    pub(crate) fn keep_one(&mut self, at: Turn, op: usize) -> Turn
        requires { Entries self.old at × (op < self.old.sizes.nodes) }
        ensures { Settled self.old self.new at result (keep_one (pts_of self.old) at.side.idx (arena_of self.old) at.i at.j op) }
    {
        let clockwise = self.is_clockwise(at.side, op);
        self.put_entry(at, Some(op), clockwise);
        self.put_entry(at, None, !clockwise);
        if clockwise {
            return Turn { j: at.j + 1, ..at };
        }
        Turn { i: at.i + 1, ..at }
    }

    // `op` leaves its edge list and enters `list`.
    pub(crate) fn move_to_edge(&mut self, list: EdgeList, op: usize)
        requires { (op < self.old.sizes.nodes) × (get_or self.old.sizes.lens list.idx 0 < self.old.sizes.slots) }
        ensures { Moves self.old self.new (add_to_edge (uncouple_edge (arena_of self.old) op) list.idx op) }
    {
        self.uncouple_edge(op);
        self.add_to_edge(list, op);
    }

    // Both `op` and `op2` go one way.
    pub(crate) fn keep_both(&mut self, at: Turn, op: usize, op2: usize) -> Turn
        requires { Settling self.old at op op2 }
        ensures { Settled self.old self.new at result (keep_both (pts_of self.old) at.side.idx (arena_of self.old) at.i at.j op op2) }
    {
        let cw = at.side.cw();
        let ccw = at.side.ccw();
        if self.is_clockwise(at.side, op) {
            self.set_entry(cw, at.i, Some(op));
            self.move_to_edge(cw, op2);
            self.set_entry(ccw, at.j, None);
            return Turn { j: at.j + 1, ..at };
        }
        self.set_entry(cw, at.i, None);
        self.set_entry(ccw, at.j, Some(op2));
        self.move_to_edge(ccw, op);
        Turn {
            i: at.i + 1,
            j: 0,
            ..at
        }
    }

    // One goes each way.
    pub(crate) fn keep_each(&mut self, at: Turn, op: usize, op2: usize) -> Turn
        requires { Entries self.old at × (op < self.old.sizes.nodes) × (op2 < self.old.sizes.nodes) }
        ensures { Settled self.old self.new at result (keep_each (pts_of self.old) at.side.idx (arena_of self.old) at.i at.j op op2) }
    {
        let clockwise = self.is_clockwise(at.side, op);
        let clockwise2 = self.is_clockwise(at.side, op2);
        self.put_entry(at, Some(op), clockwise);
        self.put_entry(at, Some(op2), clockwise2);
        at
    }

    // "Get ready for the next loop": the new entries at the turn's place. `op` and `op2` are no struct: each is asked about alone.
    pub(crate) fn settle(&mut self, at: Turn, op: usize, op2: usize) -> Turn
        requires { Settling self.old at op op2 }
        ensures { Settled self.old self.new at result (settle (pts_of self.old) at.side.idx (arena_of self.old) at.i at.j op op2) }
    {
        if self.is_spent(op) {
            return self.keep_one(at, op2);
        }
        if self.is_spent(op2) {
            return self.keep_one(at, op);
        }
        let larger = self.is_larger(at.side, op);
        let larger2 = self.is_larger(at.side, op2);
        if larger == larger2 {
            return self.keep_both(at, op, op2);
        }
        self.keep_each(at, op, op2)
    }
}
