// The check of a block.
ghost use Rattle.std.specs.Prelude.{◌≡◌, ◌≤◌, take};
ghost use Rattle.blocks.specs.Sizes.{body_bytes, most_check};
ghost use Rattle.blocks.specs.Bytes.{check_of};

use crate::sizes::{BLOCK, BODY};

// The check of a block: 1 plus the sum of (p + 1) × byte over the bytes before it. From the last of them down, each byte is added to a
// sum and that sum to a sum of sums: the byte at p is then counted p + 1 times, and no weight is kept.
pub fn check_of(block: &[u8; BLOCK]) -> u32
    ensures { (result ≡ check_of (take body_bytes block.now)) × (result ≤ most_check) }
{
    let mut sum: u32 = 0;
    let mut sums: u32 = 1;
    for byte in block[..BODY].iter().rev() {
        sum += u32::from(*byte);
        sums += sum;
    }
    sums
}
