// The stages of a walk (document 01, "The rule and its walk"): the definitions of what its functions answer, the types and
// numbers that these name, and their laws; no function of its own.
#![tactic(auto)]

// A rule has so many words at most, and its walk so many depths.
pub const WORDS: usize = 256;

pub const DEPTHS: usize = 256;

// A rule and its table are one array of this length: the rule's words, from RIGHTS on the starts of right rules, and from
// PLACINGS on the places among the PLACED words.
pub const PROGRAM: usize = 768;

pub const RIGHTS: usize = 256;

pub const PLACINGS: usize = 512;

// The questions of document 01 at which a walk stops, by their numbers: a word that no rule has, too many SOMEs around, a rule
// that ends too early, too many parts, no depth left, and no visit left.
pub const ODD_WORD: u32 = 8;

pub const MANY_SOMES: u32 = 10;

pub const EARLY_END: u32 = 11;

pub const MANY_PARTS: u32 = 12;

pub const NO_DEPTH: u32 = 17;

pub const NO_VISIT: u32 = 18;

// Visits made, and the greatest depth.
#[derive(Clone, Copy, Debug, PartialEq, Eq)]
pub struct Counts {
    pub visits: u32,
    pub deepest: u32,
}

// The call's numbers: the most visits, the greatest name, the script's parts, and these with the parts that PLACED words make.
#[derive(Clone, Copy)]
pub struct Limits {
    pub patience: u32,
    pub greatest: u32,
    pub parts: usize,
    pub limit: usize,
}

// Yes or no with the counts; or the question's number, the place and the visits made. No Result: yes and no are both answers,
// and a word goes on from either, so that a ? would hand up the wrong one.
#[derive(Drop)]
pub enum Walked {
    Yes(Counts),
    No(Counts),
    Stopped(u32, usize, u32),
}
