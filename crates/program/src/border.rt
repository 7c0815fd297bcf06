// Where the border between two texts is, one right after the other.
ghost use Rattle.std.specs.Prelude.{[], ◌∷◌};
ghost use Rattle.definitions.specs.Border.{border_of};
ghost use Rattle.program.specs.Border.{Border};

// By the two numbers of the line in front: at the end of a text that is shorter than they tell.
pub fn border(text: &[u8], a: u16, b: u16) -> usize
    ensures { Border (border_of (a ∷ b ∷ [])) text.now result }
{
    let size = a as usize * 10000 + b as usize;
    if text.len() < size {
        return text.len();
    }
    size
}
