// Bytes put into a slice, the rest left as it was.
ghost use Rattle.std.specs.Prelude.{◌≡◌, ◌≤◌, ◌+◌, ◌-◌, length, replicate};
ghost use Rattle.std.proofs.Math.Seq.{paste};

// Puts bytes from a place on, one after the other.
pub fn put(out: &mut [u8], at: usize, bytes: &[u8])
    requires { at + length bytes.now ≤ length out.old }
    ensures { out.new ≡ paste out.old at bytes.now (length bytes.now) }
{
    out[at..at + bytes.len()].copy_from_slice(bytes);
}

// Puts zeros from one place up to another.
pub fn put_zeros(out: &mut [u8], at: usize, end: usize)
    requires { (at ≤ end) × (end ≤ length out.old) }
    ensures { out.new ≡ paste out.old at (replicate (end - at) 0) (end - at) }
{
    out[at..end].fill(0);
}
