// Numbers in decimal.
ghost use Rattle.std.specs.Prelude.{◌≡◌, length};
ghost use Rattle.text.specs.Decimal.{signed_decimal};

use itoa::Buffer;

// How many bytes `z` takes, its minus among them.
pub(crate) fn signed_length(z: i64) -> usize
    ensures { result ≡ length (signed_decimal z) }
{
    let mut buffer = Buffer::new();
    buffer.format(z).len()
}
