// Numbers of 32 bits as four bytes each, the lowest first.
ghost use Rattle.std.specs.Prelude.{◌≡◌, ℕ, map, ◌+◌, ◌*◌, ◌/◌, ◌≤◌, length};
ghost use Rattle.std.proofs.lemmas.List.Edits.{sets};
ghost use Rattle.reference.specs.Entry.{filled};
ghost use Rattle.reference.specs.Exported.{word, bits, words, read_words};
ghost use Rattle.firmware.specs.Words.{word_at};

// What is sent as four bytes.
pub(crate) trait Word {
    // The number that the bytes are the low ones of.
    ghost low: { Self → ℕ };

    fn low(self) -> u64
        ensures { result ≡ low self };
}

impl Word for u32 {
    ghost low = { λ n. n };

    fn low(self) -> u64 {
        u64::from(self)
    }
}

// A signed number as 32 bits. Not the low bytes that `to_le_bytes` gives: below -4,294,967,296 the definition has 0.
impl Word for i64 {
    ghost low = { bits };

    fn low(self) -> u64 {
        let size = self.unsigned_abs();
        if self < 0 {
            4294967296u64.saturating_sub(size)
        } else {
            size
        }
    }
}

// The signed number in the four bytes from `at` on.
fn read_word(bytes: &[u8], at: usize) -> i64
    requires { at + 4 ≤ length bytes.now }
    ensures { result ≡ word_at bytes.now at }
{
    i64::from(i32::from_le_bytes([bytes[at], bytes[at + 1], bytes[at + 2], bytes[at + 3]]))
}

// Four bytes from `at` on.
fn put_word(n: u64, out: &mut [u8], at: usize)
    requires { at + 4 ≤ length out.old }
    ensures { out.new ≡ sets out.old at (word n) }
{
    out[at..at + 4].copy_from_slice(&n.to_le_bytes()[..4]);
}

// The numbers of a path's bytes. By positions: at the return no fact says what was written to a list that is zipped with them.
pub(crate) fn read_words(bytes: &[u8], path: &mut [i64])
    requires { length bytes.now / 4 ≤ length path.old }
    ensures { path.new ≡ filled (read_words bytes.now) path.old }
{
    for i in 0..bytes.len() / 4 {
        path[i] = read_word(bytes, 4 * i);
    }
}

// Whole numbers or coordinates as bytes.
pub(crate) fn put_words<T: Word + Copy>(items: &[T], out: &mut [u8])
    requires { 4 * length items.now ≤ length out.old }
    ensures { out.new ≡ filled (words (map T.low items.now)) out.old }
{
    for (i, item) in items.iter().enumerate() {
        put_word(item.low(), out, 4 * i);
    }
}
