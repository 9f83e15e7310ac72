//! What holds of all lines and texts.
ghost use Rattle.std.specs.Prelude.{◌≡◌, ◌⊎◌, ℕ, List, Option};
ghost use Rattle.hv_asm.specs.Assembly.{IsAssembled, HasBadLine};
ghost use Rattle.hv_asm.specs.Line.{Gives};
ghost use Rattle.hv_asm.specs.Image.{image_of};

use crate::line::read_asm;
use hv_text::line_at;

/// A law, with no work at run time: a line gives one answer at most, and a text has one list of
/// bytes, which is its image, or one first bad line, never both.
pub fn texts_assemble_one_way()
    ensures one_answer { (line : List ℕ) (answer other : Option ℕ)
        → Gives line answer → Gives line other → answer ≡ other }
    ensures one_assembly { (text bytes other : List ℕ)
        → IsAssembled text bytes → IsAssembled text other → bytes ≡ other }
    ensures one_bad_line { (text : List ℕ) (number other : ℕ)
        → HasBadLine text number → HasBadLine text other → number ≡ other }
    ensures not_both { (text bytes : List ℕ) (number : ℕ)
        → IsAssembled text bytes → HasBadLine text number → ⊥ }
    ensures image { (text bytes : List ℕ) → IsAssembled text bytes → bytes ≡ image_of text }
{}

/// A law: each text has its bytes or a first bad line. A call looks at each line.
pub fn each_text_assembles_or_has_a_bad_line(text: &[u8])
    ensures { ((bytes : List ℕ) × IsAssembled text.now bytes)
        ⊎ ((number : ℕ) × HasBadLine text.now number) }
{
    let mut from = 0;
    while let Some((start, end, next)) = line_at(text, from) {
        if read_asm(&text[start..end]).is_err() {
            return;
        }
        from = next;
    }
}
