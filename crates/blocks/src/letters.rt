// The letters T and B that every block begins with.
ghost use Rattle.plant.specs.Reflect.{Is};
ghost use Rattle.blocks.specs.Fields.{Lettered};

pub const LETTERS: [u8; 2] = *b"TB";

// Whether bytes begin with the letters, one after the other. Fewer bytes than two have none.
pub fn letters_stand(block: &[u8]) -> bool
    ensures { Is result (Lettered block.now) }
{
    block.starts_with(&LETTERS)
}
