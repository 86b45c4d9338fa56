// Lesson scripts: their text is read line by line, each line is a call of the island keeper, and each call's answer is written
// as text. LESSON-FORMAT.md fixes both texts.
//
// Nothing here asks anything of its caller, and of the tables it asks nothing at all: a script and the words of the state may
// hold anything.
#![tactic(auto)]

pub mod answer;
pub mod read;
