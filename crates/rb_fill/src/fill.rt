//! Buffers of zeros, which are filled piece by piece. That costs less than number by number, and a count of
//! instructions takes each piece for some 130, where it takes a longer fill for one a byte.
ghost use Rattle.std.specs.Prelude.{◌≡◌, ◌<◌, IfOk, length, replicate, vec_len};

use rb_base::NoMemory;
use std::alloc::Global;

/// How many zeros are put at once.
const PIECE: usize = 1024;

/// So many copies of a value, of which the piece has some.
fn repeated<T: Copy>(alloc: Global, value: T, piece: &[T], count: usize) -> Result<Vec<T>, NoMemory>
    requires some { 0 < length piece.now }
    requires copies { piece.now ≡ replicate (length piece.now) value }
    ensures copies { IfOk result (λ items. items.items ≡ replicate count value) }
    ensures len { IfOk result (λ items. vec_len items ≡ count) }
{
    let Ok(mut items) = Vec::with_capacity(alloc, count) else {
        return Err(NoMemory);
    };
    while items.len() < count {
        let more = (count - items.len()).min(piece.len());
        if items.extend_from_slice(&piece[..more]).is_err() {
            return Err(NoMemory);
        }
    }
    Ok(items)
}

/// So many bytes, each 0.
pub fn zero_bytes(alloc: Global, count: usize) -> Result<Vec<u8>, NoMemory>
    ensures zeros { IfOk result (λ bytes. bytes.items ≡ replicate count 0) }
    ensures len { IfOk result (λ bytes. vec_len bytes ≡ count) }
{
    repeated(alloc, 0, &[0; 2 * PIECE], count)
}

/// So many numbers, each 0.
pub fn zero_numbers(alloc: Global, count: usize) -> Result<Vec<u16>, NoMemory>
    ensures zeros { IfOk result (λ numbers. numbers.items ≡ replicate count 0) }
    ensures len { IfOk result (λ numbers. vec_len numbers ≡ count) }
{
    repeated(alloc, 0, &[0; PIECE], count)
}
