ghost use Rattle.std.specs.Prelude.{◌≡◌, ◌≤◌, ◌+◌, ◌++◌, length, take, drop, vec_len};

/// Puts bytes in place of those that stand from an offset on.
#[inline(always)]
pub fn overwrite(out: &mut Vec<u8>, at: usize, bytes: &[u8])
    requires { at + length bytes.now ≤ vec_len out.old }
    ensures { out.new.items ≡ take at out.old.items
        ++ (bytes.now ++ drop (at + length bytes.now) out.old.items) }
{
    out[at..at + bytes.len()].copy_from_slice(bytes);
}
