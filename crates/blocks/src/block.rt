// A block as an array, whose length is its type's to say.
ghost use Rattle.std.specs.Prelude.{◌≡◌, length};
ghost use Rattle.blocks.specs.Sizes.{block_bytes};

use crate::sizes::BLOCK;

// Bytes as long as a block, as a block.
pub fn as_block(bytes: &[u8]) -> &[u8; BLOCK]
    requires { length bytes.now ≡ block_bytes }
    ensures { result.now ≡ bytes.now }
{
    bytes.as_array().unwrap()
}
