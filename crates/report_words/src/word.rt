// The words of the report as values.
ghost use Rattle.std.specs.Prelude.{◌≡◌, ◌≢◌, ◌<◌, ◌≤◌, MatchOption, length};
ghost use Rattle.report_words.specs.Saying.{advice, composite_with, is_same, join, join_down, join_traffic, join_up, place_in_order, said_by, stronger, text_of, word_alone};
ghost use Rattle.report_words.specs.declared.word.Word.{Word};

use acas_base::{Cell, Sense, Strength};
use advisory_report::{Composite, word};

/// What the cells of an aircraft say in a cycle: a word of the report.
#[derive(Clone, Copy)]
pub enum Word {
    /// No cell has traffic or advice.
    Clear,
    /// Some cell has traffic, and none has advice.
    Traffic,
    /// Advice to climb, or not to descend, and none of the other sense. This is the strongest.
    Up(Strength),
    /// Advice to descend, or not to climb, and none of the other sense.
    Down(Strength),
    /// Advice of both senses.
    Both,
}

/// How many words there are.
pub const WORDS: usize = 15;

/// All words, in their order.
pub const ALL_WORDS: [Word; WORDS] = [
    Word::Clear,
    Word::Traffic,
    Word::Up(Strength::Limit2000),
    Word::Up(Strength::Limit1000),
    Word::Up(Strength::Limit500),
    Word::Up(Strength::Level),
    Word::Up(Strength::Positive),
    Word::Up(Strength::Increase),
    Word::Down(Strength::Limit2000),
    Word::Down(Strength::Limit1000),
    Word::Down(Strength::Limit500),
    Word::Down(Strength::Level),
    Word::Down(Strength::Positive),
    Word::Down(Strength::Increase),
    Word::Both,
];

// The stronger one of two strengths.
fn stronger(one: Strength, other: Strength) -> Strength
    ensures { result ≡ stronger one other }
{
    if one.place() < other.place() {
        other
    } else {
        one
    }
}

fn advice(sense: Sense, strength: Strength) -> Word
    ensures { result ≡ advice sense strength }
{
    match sense {
        Sense::Up => Word::Up(strength),
        Sense::Down => Word::Down(strength),
    }
}

// What traffic and another word say together.
fn join_traffic(other: Word) -> Word
    ensures { result ≡ join_traffic other }
{
    match other {
        Word::Clear => Word::Traffic,
        Word::Traffic | Word::Up(_) | Word::Down(_) | Word::Both => other,
    }
}

// What advice of one sense and another word say together.
fn join_up(one: Strength, other: Word) -> Word
    ensures { result ≡ join_up one other }
{
    match other {
        Word::Clear | Word::Traffic => Word::Up(one),
        Word::Up(other) => Word::Up(stronger(one, other)),
        Word::Down(_) | Word::Both => Word::Both,
    }
}

fn join_down(one: Strength, other: Word) -> Word
    ensures { result ≡ join_down one other }
{
    match other {
        Word::Clear | Word::Traffic => Word::Down(one),
        Word::Down(other) => Word::Down(stronger(one, other)),
        Word::Up(_) | Word::Both => Word::Both,
    }
}

impl Word {
    /// What a cell says alone.
    pub fn alone(cell: &Cell) -> Word
        ensures { result ≡ word_alone cell.now }
    {
        match cell {
            Cell::Clear => Word::Clear,
            Cell::Traffic => Word::Traffic,
            Cell::Ra(advisory) => advice(advisory.sense, advisory.strength),
        }
    }

    /// What cells say together.
    #[tactic(auto, unfolding(crate::specs::Saying::said_by))]
    pub fn of(cells: &[Cell]) -> Word
        ensures { result ≡ said_by cells.now }
    {
        cells
            .iter()
            .fold(Word::Clear, |word, cell| word.join(Word::alone(cell)))
    }

    /// What this word and another one say together.
    pub fn join(self, other: Word) -> Word
        ensures { result ≡ join self other }
    {
        match self {
            Word::Clear => other,
            Word::Traffic => join_traffic(other),
            Word::Up(strength) => join_up(strength, other),
            Word::Down(strength) => join_down(strength, other),
            Word::Both => Word::Both,
        }
    }

    /// Its place in the order of words, from 0.
    pub fn place(self) -> usize
        ensures value { result ≡ place_in_order self }
        ensures bound { result < 15 }
    {
        match self {
            Word::Clear => 0,
            Word::Traffic => 1,
            Word::Up(strength) => 2 + strength.place(),
            Word::Down(strength) => 8 + strength.place(),
            Word::Both => 14,
        }
    }

    /// Whether it is another word, too.
    pub fn is(self, other: Word) -> bool
        ensures { result ≡ is_same self other }
    {
        self.place() == other.place()
    }

    /// A composite that has this word, and no mark.
    pub fn composite(self) -> Composite
        ensures { result ≡ composite_with self }
    {
        let none = Composite::clear();
        match self {
            Word::Clear => none,
            Word::Traffic => Composite {
                traffic: true,
                ..none
            },
            Word::Up(strength) => Composite {
                up: Some(strength),
                ..none
            },
            Word::Down(strength) => Composite {
                down: Some(strength),
                ..none
            },
            Word::Both => Composite {
                up: Some(Strength::Level),
                down: Some(Strength::Level),
                ..none
            },
        }
    }

    /// Its text in the report.
    pub fn text(self) -> &'static str
        ensures text { result.now ≡ text_of self }
        ensures short { length result.now ≤ 13 }
    {
        word(&self.composite())
    }

    /// The word of a text; none where it is the text of no word.
    pub fn parse(text: &str) -> Option<Word>
        ensures { MatchOption result ((word : Word) → text.now ≢ text_of word) (λ word. text.now ≡ text_of word) }
    {
        for at in 0..ALL_WORDS.len() {
            if text == ALL_WORDS[at].text() {
                return Some(ALL_WORDS[at]);
            }
        }
        None
    }
}
