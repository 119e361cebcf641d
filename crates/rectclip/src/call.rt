// A call of either clipper that no early refusal stopped.
ghost use Rattle.std.specs.Prelude.{◌≡◌, length, replicate, pos};
ghost use Rattle.rectclip.specs.Calls.{Admitted, Allowance};

use plane::rect::Rect64;

// The rectangle, the path with its bounds, the turns allowed (an open path takes none), and the working lists that the caller lends.
#[derive(Drop)]
pub(crate) struct Call<'a> {
    pub(crate) rect: Rect64,
    pub(crate) path: &'a [i64],
    pub(crate) bounds: Rect64,
    pub(crate) allowance: usize,
    pub(crate) store: &'a mut [i64],
    pub(crate) work: &'a mut [u32],
    ghost admitted: { Admitted rect path.now bounds },
    ghost room: { Allowance allowance store.now work.now },
}

impl Call<'_> {
    ghost use Rattle.rectclip.specs.Delivering.{SameCall};

    // Both working lists are all zero from now on.
    pub(crate) fn clear(&mut self)
        ensures same { SameCall self.old self.new }
        ensures store { self.new.store.now ≡ replicate (length self.old.store.now) (pos 0) }
        ensures work { self.new.work.now ≡ replicate (length self.old.work.now) 0 }
    {
        self.store.fill(0);
        self.work.fill(0);
    }
}
