// The arena in the lent lists: a node's point in the store; its links, owner and edge, the results and the edge lists in the work list.
// Once ring.rt has put down the ring, the polygon clipper reads and writes the lists' fields by these methods alone.
ghost use Rattle.std.specs.Prelude.{◌≡◌, ◌≢◌, ◌<◌, IfSome, eqb, get_or};
ghost use Rattle.plane.specs.Basics.{none, push};
ghost use Rattle.reference.specs.Arena.{pt_of, next_of, prev_of, owner_of, edge_of, result_of, edge_list, set_next, set_prev, set_owner, set_edge, set_result, set_results, set_entry, set_edge_list, set_new_owner};
ghost use Rattle.rectclip.specs.Arenas.{Holds, mark, list_mark, longer_list, one_result_more};
ghost use Rattle.rectclip.specs.Stored.{Drawn};

use crate::lists::{EDGE, EDGES, NEXT, NONE, OWNER, PREV, RESULT, get, point_at, put};
use crate::side::EdgeList;
use plane::point::Point64;

// How many slots there are, how many of them are nodes and results, and how long each edge list is.
#[derive(Clone, Copy)]
pub(crate) struct Sizes {
    pub slots: usize,
    pub nodes: usize,
    pub results: usize,
    pub lens: [usize; 8],
}

// The lent lists with the sizes: the store holds the nodes' points, and the work list the arena.
#[derive(Drop)]
pub(crate) struct Arena<'a> {
    pub(crate) store: &'a [i64],
    pub(crate) work: &'a mut [u32],
    pub(crate) sizes: Sizes,
    ghost drawn: { Drawn store.now sizes.nodes },
    ghost holds: { Holds work.now sizes },
}

// What a number of the list stands for: the mark for `None`.
fn unmarked(v: usize) -> Option<usize>
    ensures is { mark result ≡ v }
    ensures some { IfSome result (λ i. i ≢ none) }
{
    if v == NONE { None } else { Some(v) }
}

// The number that the list holds for it.
fn marked(v: Option<usize>) -> usize
    ensures { result ≡ mark v }
{
    v.unwrap_or(NONE)
}

// The same for an edge list.
fn marked_list(v: Option<EdgeList>) -> usize
    ensures { result ≡ list_mark v }
{
    match v {
        None => NONE,
        Some(list) => list.idx,
    }
}

// A node's four fields have a reader and a setter each, as the definition has: one over the field's number would need the field's bound
// and law by cases at each call. That an index is one of the arena's, and that one more result has room, stays in the contracts, here and in the
// methods of other files: a struct of an index could not say of which arena it is.
impl<'a> Arena<'a> {
    ghost use Rattle.rectclip.specs.Changes.{arena_of, pts_of, Leaves, Grows};

    // `arena[i].pt`
    pub(crate) fn point_of(&self, i: usize) -> Point64
        requires { i < self.now.sizes.nodes }
        ensures { result ≡ pt_of (pts_of self.now) i }
    {
        point_at(self.store, i)
    }

    // `arena[i].next`
    pub(crate) fn next_of(&self, i: usize) -> usize
        requires { i < self.now.sizes.nodes }
        ensures is { result ≡ next_of (arena_of self.now) i }
        ensures within { result < self.now.sizes.nodes }
    {
        get(self.work, NEXT, i)
    }

    // `arena[i].prev`
    pub(crate) fn prev_of(&self, i: usize) -> usize
        requires { i < self.now.sizes.nodes }
        ensures is { result ≡ prev_of (arena_of self.now) i }
        ensures within { result < self.now.sizes.nodes }
    {
        get(self.work, PREV, i)
    }

    // `arena[i].owner_idx`
    pub(crate) fn owner_of(&self, i: usize) -> usize
        requires { i < self.now.sizes.nodes }
        ensures is { result ≡ owner_of (arena_of self.now) i }
        ensures within { result < self.now.sizes.results }
    {
        get(self.work, OWNER, i)
    }

    // `arena[i].edge_idx`
    pub(crate) fn edge_of(&self, i: usize) -> Option<EdgeList>
        requires { i < self.now.sizes.nodes }
        ensures { list_mark result ≡ edge_of (arena_of self.now) i }
    {
        let idx = unmarked(get(self.work, EDGE, i))?;
        Some(EdgeList { idx })
    }

    // `results[i]`
    pub(crate) fn result_of(&self, i: usize) -> Option<usize>
        requires { i < self.now.sizes.results }
        ensures is { mark result ≡ result_of (arena_of self.now) i }
        ensures within { IfSome result (λ op. op < self.now.sizes.nodes) }
    {
        unmarked(get(self.work, RESULT, i))
    }

    // `edges[list][j]`
    pub(crate) fn entry_of(&self, list: EdgeList, j: usize) -> Option<usize>
        requires { j < get_or self.now.sizes.lens list.idx 0 }
        ensures is { mark result ≡ get_or (edge_list (arena_of self.now) list.idx) j none }
        ensures within { IfSome result (λ op. op < self.now.sizes.nodes) }
    {
        unmarked(get(self.work, EDGES + list.idx, j))
    }

    // `edges[list][j] == Some(op)`, in one comparison: an edge list is looked through for each node that leaves it
    pub(crate) fn is_entry(&self, list: EdgeList, j: usize, op: usize) -> bool
        requires { j < get_or self.now.sizes.lens list.idx 0 }
        ensures { result ≡ eqb (get_or (edge_list (arena_of self.now) list.idx) j none) op }
    {
        get(self.work, EDGES + list.idx, j) == op
    }

    // `arena[i].next = v`
    pub(crate) fn set_next(&mut self, i: usize, v: usize)
        requires { (i < self.old.sizes.nodes) × (v < self.old.sizes.nodes) }
        ensures { Leaves self.old self.new (set_next (arena_of self.old) i v) }
    {
        put(self.work, NEXT, i, v);
    }

    // `arena[i].prev = v`
    pub(crate) fn set_prev(&mut self, i: usize, v: usize)
        requires { (i < self.old.sizes.nodes) × (v < self.old.sizes.nodes) }
        ensures { Leaves self.old self.new (set_prev (arena_of self.old) i v) }
    {
        put(self.work, PREV, i, v);
    }

    // `arena[i].owner_idx = v`
    pub(crate) fn set_owner(&mut self, i: usize, v: usize)
        requires { (i < self.old.sizes.nodes) × (v < self.old.sizes.results) }
        ensures { Leaves self.old self.new (set_owner (arena_of self.old) i v) }
    {
        put(self.work, OWNER, i, v);
    }

    // Each node of the ring of `op` has the owner `owner` from now on.
    // The loop is over the plain list, down to 0: the address stays in a register, 7 instructions a node, not 9 (a random walk of 1,024 points).
    pub(crate) fn set_new_owner(&mut self, op: usize, owner: usize)
        requires { (op < self.old.sizes.nodes) × (owner < self.old.sizes.results) }
        ensures { Leaves self.old self.new (set_new_owner self.old.sizes.nodes (arena_of self.old) op owner) }
    {
        let nodes = self.sizes.nodes;
        let work = &mut *self.work;
        put(work, OWNER, op, owner);
        let mut op2 = get(work, NEXT, op);
        for _pass in (0..nodes).rev() {
            if op2 == op {
                return;
            }
            put(work, OWNER, op2, owner);
            op2 = get(work, NEXT, op2);
        }
    }

    // `arena[i].edge_idx = v`
    pub(crate) fn set_edge(&mut self, i: usize, v: Option<EdgeList>)
        requires { i < self.old.sizes.nodes }
        ensures { Leaves self.old self.new (set_edge (arena_of self.old) i (list_mark v)) }
    {
        put(self.work, EDGE, i, marked_list(v));
    }

    // `results[i] = v`
    pub(crate) fn set_result(&mut self, i: usize, v: Option<usize>)
        requires { (i < self.old.sizes.results) × IfSome v (λ op. op < self.old.sizes.nodes) }
        ensures { Leaves self.old self.new (set_result (arena_of self.old) i (mark v)) }
    {
        put(self.work, RESULT, i, marked(v));
    }

    // `edges[list][i] = v`
    pub(crate) fn set_entry(&mut self, list: EdgeList, i: usize, v: Option<usize>)
        requires { (i < get_or self.old.sizes.lens list.idx 0) × IfSome v (λ op. op < self.old.sizes.nodes) }
        ensures { Leaves self.old self.new (set_entry (arena_of self.old) list.idx i (mark v)) }
    {
        put(self.work, EDGES + list.idx, i, marked(v));
    }

    // `results.push(v)`
    pub(crate) fn push_result(&mut self, v: usize)
        requires { (self.old.sizes.results < self.old.sizes.slots) × (v < self.old.sizes.nodes) }
        ensures { Grows self.old self.new (one_result_more self.old.sizes) (set_results (arena_of self.old) (push (arena_of self.old).results v)) }
    {
        let n = self.sizes.results;
        put(self.work, RESULT, n, v);
        self.sizes.results = n + 1;
    }

    // `edges[list].push(v)`
    pub(crate) fn push_entry(&mut self, list: EdgeList, v: usize)
        requires { (get_or self.old.sizes.lens list.idx 0 < self.old.sizes.slots) × (v < self.old.sizes.nodes) }
        ensures { Grows self.old self.new (longer_list self.old.sizes list.idx) (set_edge_list (arena_of self.old) list.idx (push (edge_list (arena_of self.old) list.idx) v)) }
    {
        let n = self.sizes.lens[list.idx];
        put(self.work, EDGES + list.idx, n, v);
        self.sizes.lens[list.idx] = n + 1;
    }
}
