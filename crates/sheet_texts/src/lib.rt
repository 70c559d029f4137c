// Texts and sheets: what stands in each line of a text, and which texts are chart sheets.
#![tactic(auto)]

pub mod line;

ghost use Rattle.sheet_texts.specs.Theorems.{OneSheet, SoundSheet, OneFault};

// A text is one sheet at most, or is at fault in one line.
pub fn texts_are_exact()
    ensures one { OneSheet }
    ensures sound { SoundSheet }
    ensures fault { OneFault }
{}
