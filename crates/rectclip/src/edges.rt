// Edge lists: a node entered, the sides of a ring's nodes, and `check_edges`.
ghost use Rattle.std.specs.Prelude.{◌≡◌, ◌<◌};
ghost use Rattle.reference.specs.Arena.{edge_list, set_edge_list, struck, uncouple_edge, add_to_edge, assign_side, assign_edges, check_edges};
ghost use Rattle.rectclip.specs.Arenas.{Spare};
ghost use Rattle.rectclip.specs.Changes.{arena_of, pts_of, Leaves, Enters};
ghost use Rattle.rectclip.specs.Edges.{Entering, Assigning, assign_node, check_result};

use crate::arena::Arena;
use crate::side::{EdgeList, Side};
use plane::direction::is_heading_clockwise;
use plane::rect::Rect64;

impl Arena<'_> {
    // A node that is in no edge list enters the list.
    pub(crate) fn add_to_edge(&mut self, list: EdgeList, op: usize)
        requires { Entering self.old list op }
        ensures { Enters self.old self.new (add_to_edge (arena_of self.old) list.idx op) }
    {
        if self.edge_of(op).is_some() {
            return;
        }
        self.set_edge(op, Some(list));
        self.push_entry(list, op);
    }

    // The node enters a list of the side, if it and the point before are on that side. `Assigning`, and `Spare` in it, stay in the contracts here
    // and below: they hold until the sides are tidied, where a node that leaves a list leaves its place there, so they are no facts of the arena.
    pub(crate) fn assign_side(&mut self, op: usize, set1: u32, set2: u32, side: Side)
        requires { Assigning self.old op }
        ensures { Enters self.old self.new (assign_side (pts_of self.old) (arena_of self.old) op set1 set2 side.idx) }
    {
        if !side.is_in(set1) || !side.is_in(set2) {
            return;
        }
        let prev = self.prev_of(op);
        let clockwise = is_heading_clockwise(
            self.point_of(prev),
            self.point_of(op),
            side.location(),
        );
        let list = if clockwise { side.cw() } else { side.ccw() };
        self.add_to_edge(list, op);
    }

    // A pass of "Assign edges" at the node `op`.
    pub(crate) fn assign_node(&mut self, op: usize, set1: u32, set2: u32)
        requires { Assigning self.old op }
        ensures { Enters self.old self.new (assign_node (pts_of self.old) (arena_of self.old) op set1 set2) }
    {
        if set2 == 0 {
            return;
        }
        if self.edge_of(op).is_some() {
            return;
        }
        for idx in 0..4 {
            self.assign_side(op, set1, set2, Side { idx });
        }
    }

    // "Assign edges" of the ring of `op`: `first` are the sides of the point before it. The ring is gone round by hand, as `Nodes` would hold the arena
    // that is written here.
    pub(crate) fn assign_edges(&mut self, rect: Rect64, op: usize, first: u32)
        requires { Assigning self.old op }
        ensures { Enters self.old self.new (assign_edges (pts_of self.old) self.old.sizes.nodes rect (arena_of self.old) op op first) }
    {
        let mut op2 = op;
        let mut set1 = first;
        for _pass in 0..self.sizes.nodes {
            let set2 = rect.get_edges_for_pt(self.point_of(op2));
            self.assign_node(op2, set1, set2);
            op2 = self.next_of(op2);
            if op2 == op {
                return;
            }
            set1 = set2;
        }
    }

    // A pass of `check_edges`: the ring of result `i`.
    pub(crate) fn check_result(&mut self, rect: Rect64, i: usize)
        requires { Spare self.old.sizes.slots 0 (arena_of self.old) × (i < self.old.sizes.results) }
        ensures { Enters self.old self.new (check_result (pts_of self.old) rect (arena_of self.old) i) }
    {
        let Some(start) = self.result_of(i) else {
            return;
        };
        let left = self.drop_collinear(start);
        self.set_result(i, left);
        let Some(op) = left else {
            return;
        };
        let prev = self.prev_of(op);
        let first = rect.get_edges_for_pt(self.point_of(prev));
        self.assign_edges(rect, op, first);
    }

    // `check_edges`
    pub(crate) fn check_edges(&mut self, rect: Rect64)
        requires { Spare self.old.sizes.slots 0 (arena_of self.old) }
        ensures { Enters self.old self.new (check_edges (pts_of self.old) rect (arena_of self.old)) }
    {
        for i in 0..self.sizes.results {
            self.check_result(rect, i);
        }
    }

    // The first entry of the list that is `op` is struck out. A `for` with a return, like the scan of next.rt.
    pub(crate) fn strike(&mut self, list: EdgeList, op: usize)
        requires { op < self.old.sizes.nodes }
        ensures { Leaves self.old self.new (set_edge_list (arena_of self.old) list.idx (struck (edge_list (arena_of self.old) list.idx) op)) }
    {
        for i in 0..self.sizes.lens[list.idx] {
            if self.is_entry(list, i, op) {
                self.set_entry(list, i, None);
                return;
            }
        }
    }

    // The node is in no edge list from now on.
    pub(crate) fn uncouple_edge(&mut self, op: usize)
        requires { op < self.old.sizes.nodes }
        ensures { Leaves self.old self.new (uncouple_edge (arena_of self.old) op) }
    {
        let Some(list) = self.edge_of(op) else {
            return;
        };
        self.strike(list, op);
        self.set_edge(op, None);
    }
}
