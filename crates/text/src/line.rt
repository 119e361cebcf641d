// A line that is written into a list of bytes.
use itoa::Buffer;

// The list, and how many bytes at its front are the line so far. The library's `Cursor` answers an `io::Result` to each write; here whoever begins a
// line has seen that there is room for all of it. `HasRoom` stays in the contracts: it is of the line and the bytes of one call.
#[derive(Drop)]
pub(crate) struct Line<'a> {
    pub(crate) out: &'a mut [u8],
    pub(crate) end: usize,
}

impl Line<'_> {
    ghost use Rattle.std.specs.Prelude.{[], ◌∷◌};
    ghost use Rattle.text.specs.Decimal.{signed_decimal};
    ghost use Rattle.text.specs.Printing.{comma_numbers};
    ghost use Rattle.text.specs.Lines.{HasRoom, Puts};

    // Bytes, behind those that are written.
    pub(crate) fn put(&mut self, bytes: &[u8])
        requires { HasRoom self.old bytes.now }
        ensures { Puts self.old self.new bytes.now }
    {
        let end = self.end + bytes.len();
        self.out[self.end..end].copy_from_slice(bytes);
        self.end = end;
    }

    // A comma and a number.
    fn put_number(&mut self, z: i64)
        requires { HasRoom self.old (44 ∷ signed_decimal z) }
        ensures { Puts self.old self.new (44 ∷ signed_decimal z) }
    {
        let mut buffer = Buffer::new();
        self.put(b",");
        self.put(buffer.format(z).as_bytes());
    }

    // Numbers, each with a comma before it.
    pub(crate) fn put_numbers(&mut self, list: &[i64])
        requires { HasRoom self.old (comma_numbers list.now) }
        ensures { Puts self.old self.new (comma_numbers list.now) }
    {
        for z in list {
            self.put_number(*z);
        }
    }
}
