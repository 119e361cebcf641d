// The arena that the walk leaves: one ring of the walked points in their order.
ghost use Rattle.std.specs.Prelude.{◌≡◌, ◌<◌, ◌≤◌, ◌*◌, ◌+◌, length};
ghost use Rattle.rectclip.specs.Memory.{Room};
ghost use Rattle.rectclip.specs.Stored.{Drawn};
ghost use Rattle.rectclip.specs.Rings.{Placed, Linked, Built};

use crate::arena::{Arena, Sizes};
use crate::lists::{EDGE, NEXT, NONE, OWNER, PREV, RESULT, put};

// Node `i` is new: its links, owner 0, in no edge list.
pub(crate) fn put_node(work: &mut [u32], i: usize, next: usize, prev: usize)
    requires { (16 * i + 16 ≤ length work.old) × (next < 4294967296) × (prev < 4294967296) }
    ensures { Placed work.old work.new i next prev }
{
    put(work, NEXT, i, next);
    put(work, PREV, i, prev);
    put(work, OWNER, i, 0);
    put(work, EDGE, i, NONE);
}

// The first `n` slots are nodes in a ring.
pub(crate) fn link_nodes(work: &mut [u32], n: usize)
    requires { Room n work.old × (0 < n) }
    ensures { Linked work.old work.new n }
{
    let mut prev = n - 1;
    for i in 0..n {
        put_node(work, i, (i + 1) % n, prev);
        prev = i;
    }
}

// The arena of `n` walked points, which the list `points` holds, in `slots` slots. The lists are apart here and above: what the arena knows of them does
// not hold before it is made.
pub(crate) fn build_ring<'a>(
    points: &'a [i64],
    work: &'a mut [u32],
    slots: usize,
    n: usize,
) -> Arena<'a>
    requires { Room slots work.old × (n ≤ slots) × Drawn points.now n }
    ensures built { Built points.now work.old slots n result }
    ensures name { result.work.ghost_name ≡ work.entry.ghost_name }
{
    let mut sizes = Sizes {
        slots,
        nodes: n,
        results: 0,
        lens: [0; 8],
    };
    if 0 < n {
        link_nodes(work, n);
        put(work, RESULT, 0, n - 1);
        sizes.results = 1;
    }
    Arena {
        store: points,
        work,
        sizes,
    }
}
