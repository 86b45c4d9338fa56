// The tables of the buffer. What each holds, word by word, stands in specs/Layout.antt.
#![tactic(auto)]

ghost use Rattle.std.specs.Prelude.{◌≡◌};
ghost use Rattle.table_meaning.specs.Keys.{words_of};

use def_kinds::JointKey;

pub mod word;

#[derive(Clone, Copy)]
pub enum Table {
    Head,
    Slots,
    Members,
    Rows,
    Freed,
    Contacts,
    Touches,
    Joints,
    Keys,
    Spare,
    Journal,
    Scan,
    Fit,
}

// A joint key as its place of the key table holds it: three numbers, and which kind: 0 impulse, 1 chain (words that C reads). A multibody's 64 bits
// are its high and low 32, which `as` takes out whole.
#[derive(Clone, Copy, Debug, PartialEq, Eq)]
pub struct KeyWords {
    pub first: u32,
    pub second: u32,
    pub third: u32,
    pub kind: u32,
}

impl From<JointKey> for KeyWords {
    ghost from_gives = { λ key words. words ≡ words_of key };

    fn from(key: JointKey) -> KeyWords {
        match key {
            JointKey::Impulse { index, generation } => KeyWords {
                kind: 0,
                first: index,
                second: generation,
                third: 0,
            },
            JointKey::Chain { multibody, ordinal } => KeyWords {
                kind: 1,
                first: (multibody / 4294967296) as u32,
                second: (multibody % 4294967296) as u32,
                third: ordinal,
            },
        }
    }
}
