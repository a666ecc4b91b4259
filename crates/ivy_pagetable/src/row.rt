//! The bytes of words that lie in a row.
ghost use Rattle.std.specs.Prelude.{◌≡◌, ◌+◌, ◌*◌, ◌≤◌, length};
ghost use Rattle.ivy_model.specs.stated.Serves.{overwrite};
ghost use Rattle.ivy_pagetable.specs.WordRows.{row_len};

/// How many words of 8 bytes lie in a page of this size from a place on, and in `len` bytes.
#[inline(always)]
pub(crate) fn row_len(page_size: usize, offset: u32, len: usize) -> usize
    requires { offset ≤ page_size }
    ensures many { result ≡ row_len page_size offset len }
    ensures fits { 8 * result ≤ len }
    ensures within { offset + 8 * result ≤ page_size }
{
    let left = page_size - offset as usize;
    (left / 8).min(len / 8)
}

/// Copies bytes over those at a place.
#[inline(always)]
pub(crate) fn put(into: &mut [u8], start: usize, from: &[u8])
    requires { start + length from.now ≤ length into.old }
    ensures { into.new ≡ overwrite into.old start from.now }
{
    into[start..start + from.len()].copy_from_slice(from);
}
