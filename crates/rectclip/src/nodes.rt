// The points of a ring's nodes, one after the other, as `get_path` goes round.
ghost use Rattle.std.specs.Prelude.{◌<◌};
ghost use Rattle.std.specs.Iterator.{YieldsFirst, item_count};

use crate::arena::Arena;
use plane::point::Point64;

// The points of the nodes behind `at`, up to the node `start`; at most `left` of them.
#[derive(Drop)]
pub(crate) struct Nodes<'a, 'b> {
    pub(crate) arena: &'a Arena<'b>,
    pub(crate) start: usize,
    pub(crate) at: usize,
    pub(crate) left: usize,
    ghost here: { at < arena.now.sizes.nodes },
}

impl<'a, 'b> Iterator for Nodes<'a, 'b> {
    type Item = Point64;

    ghost use Rattle.rectclip.specs.Paths.{points_left};

    ghost next_gives = { YieldsFirst points_left };

    ghost remaining = { item_count points_left };

    fn next(&mut self) -> Option<Point64> {
        if self.left == 0 {
            return None;
        }
        let node = self.arena.next_of(self.at);
        if node == self.start {
            return None;
        }
        self.at = node;
        self.left -= 1;
        Some(self.arena.point_of(node))
    }
}
