// Which numbers are labels.

ghost use Rattle.std.specs.Prelude.{ℕ, List};
ghost use Rattle.laws.specs.Spelled.{IsText, LabelSpells, IsSpelledOnce, IsShown};

// A label spells a text, each text has its one label, and a listing shows it.
pub fn labels_spell_texts()
    ensures labels { (n : ℕ) → LabelSpells n }
    ensures once { (text : List ℕ) → IsText text → IsSpelledOnce text }
    ensures shown { (n : ℕ) (text : List ℕ) → IsText text → IsShown n text }
{}
