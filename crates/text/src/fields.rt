// The numbers behind a line's letter, each with a comma before it: first they are counted, then stored.
ghost use Rattle.std.specs.Prelude.{◌≡◌, ◌≤◌, length};
ghost use Rattle.std.proofs.lemmas.List.Edits.{sets};
ghost use Rattle.text.specs.Reading.{fields, numbers};
ghost use Rattle.text.specs.Scanning.{counted, leading, behind, leading_behind};

use crate::number::number;

// How many numbers the fields are, where all are numbers. By `try_fold` the count would go through a closure, which is no plainer.
fn count_numbers(bytes: &[u8]) -> Option<usize>
    ensures { result ≡ counted 0 (numbers (fields bytes.now)) }
{
    let mut count = 0;
    for field in bytes.split(|b| *b == b',') {
        number(field)?;
        count += 1;
    }
    Some(count)
}

// The numbers of the fields, up to one that is none, as many as the list can hold. The entries are gone over alone: behind a `zip` of `iter_mut`
// no proof knows what they hold.
fn store_numbers(bytes: &[u8], list: &mut [i64])
    ensures { list.new ≡ sets list.old 0 (leading (fields bytes.now)) }
{
    let mut fields = bytes.split(|b| *b == b',');
    for slot in list.iter_mut() {
        let Some(z) = fields.next().and_then(number) else {
            return;
        };
        *slot = z;
    }
}

// How many numbers stand behind the letter.
pub(crate) fn count_behind(bytes: &[u8]) -> Option<usize>
    ensures { result ≡ counted 0 (behind bytes.now) }
{
    if bytes.is_empty() {
        return Some(0);
    }
    count_numbers(bytes.strip_prefix(b",")?)
}

// The numbers behind the letter, as many as the list can hold.
pub(crate) fn store_behind(bytes: &[u8], list: &mut [i64])
    ensures { list.new ≡ sets list.old 0 (leading_behind bytes.now) }
{
    if let Some(fields) = bytes.strip_prefix(b",") {
        store_numbers(fields, list);
    }
}
