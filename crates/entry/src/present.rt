// Whether a path is present in the rectangle: the rectangle is not empty and the path's bounds meet it, touching included.
ghost use Rattle.std.specs.Prelude.{◌≡◌};
ghost use Rattle.reference.specs.Entry.{is_present};
ghost use Rattle.entry.specs.Answers.{presence};

use crate::admission::admit_sheet;
use crate::answer::Refusal;
use plane::rect::Rect64;

// Refusals 1, 5, 6 and 7, or whether the path is present.
pub fn present(rect: Rect64, path: &[i64]) -> Result<bool, Refusal>
    ensures { presence result ≡ is_present rect path.now }
{
    if path.len() % 2 == 1 {
        return Err(Refusal::OddCoordinates);
    }
    let bounds = admit_sheet(rect, path)?;
    Ok(!rect.is_empty() & rect.intersects(bounds))
}
