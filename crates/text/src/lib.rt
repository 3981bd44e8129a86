// The sheet that a text says; specs/SheetText.antt tells which texts are sheets. What is printed for it is in `lines`.

#![tactic(auto)]

pub mod read;
