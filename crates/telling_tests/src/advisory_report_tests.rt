// Expected values: the tables of "What the crew hears" in docs/RULES.md.
use acas_base::{Address, Strength};
use advisory_report::{Aural, Composite, aural_of, line};
use std::test::Fail;

const CLEAR: Composite = Composite {
    traffic: false,
    up: None,
    down: None,
    corrective: false,
    crossing: false,
};

const TRAFFIC: Composite = Composite {
    traffic: true,
    ..CLEAR
};

// Advice to climb, which asks for another rate.
const CLIMB: Composite = Composite {
    up: Some(Strength::Positive),
    corrective: true,
    ..CLEAR
};

const INCREASED_CLIMB: Composite = Composite {
    up: Some(Strength::Increase),
    ..CLIMB
};

const UP_LEVEL: Composite = Composite {
    up: Some(Strength::Level),
    ..CLIMB
};

const UP_2000: Composite = Composite {
    up: Some(Strength::Limit2000),
    ..CLIMB
};

const DESCENT: Composite = Composite {
    down: Some(Strength::Positive),
    corrective: true,
    ..CLEAR
};

const INCREASED_DESCENT: Composite = Composite {
    down: Some(Strength::Increase),
    ..DESCENT
};

const DOWN_1000: Composite = Composite {
    down: Some(Strength::Limit1000),
    ..DESCENT
};

// Advice that crosses.
const CROSSING_CLIMB: Composite = Composite {
    crossing: true,
    ..CLIMB
};

const CROSSING_INCREASED_CLIMB: Composite = Composite {
    crossing: true,
    ..INCREASED_CLIMB
};

const CROSSING_DESCENT: Composite = Composite {
    crossing: true,
    ..DESCENT
};

// Advice whose rate own aircraft flies already.
const KEPT_CLIMB: Composite = Composite {
    corrective: false,
    ..CLIMB
};

const KEPT_UP_LEVEL: Composite = Composite {
    corrective: false,
    ..UP_LEVEL
};

const KEPT_UP_500: Composite = Composite {
    up: Some(Strength::Limit500),
    ..KEPT_CLIMB
};

const KEPT_DESCENT: Composite = Composite {
    corrective: false,
    ..DESCENT
};

const KEPT_DOWN_LEVEL: Composite = Composite {
    down: Some(Strength::Level),
    ..KEPT_DESCENT
};

// Advice in both senses.
const BETWEEN: Composite = Composite {
    up: Some(Strength::Positive),
    ..DESCENT
};

const LEVEL_AND_DESCENT: Composite = Composite {
    up: Some(Strength::Level),
    ..DESCENT
};

const LEVEL_BOTH: Composite = Composite {
    up: Some(Strength::Level),
    down: Some(Strength::Level),
    corrective: true,
    ..CLEAR
};

// A composite, the next one, and the phrase.
type Phrase = (Composite, Composite, Aural);

// The place of the first row with another phrase.
fn first_unsaid(phrases: &[Phrase]) -> Option<usize> {
    for place in 0..phrases.len() {
        let (before, after, said) = phrases[place];
        if aural_of(&before, &after) != said {
            return Some(place);
        }
    }
    None
}

const PHRASES: &[Phrase] = &[
    // the encounters that are worked out
    (CLEAR, TRAFFIC, Aural::TrafficTraffic),
    (TRAFFIC, DESCENT, Aural::DescendDescend),
    (TRAFFIC, CLIMB, Aural::ClimbClimb),
    (CLIMB, DESCENT, Aural::DescendNow),
    (DESCENT, INCREASED_DESCENT, Aural::IncreaseDescent),
    (INCREASED_DESCENT, CLIMB, Aural::ClimbNow),
    (TRAFFIC, CROSSING_CLIMB, Aural::ClimbCrossing),
    (
        CROSSING_CLIMB,
        CROSSING_INCREASED_CLIMB,
        Aural::IncreaseClimb,
    ),
    (CROSSING_CLIMB, KEPT_DOWN_LEVEL, Aural::Monitor),
    (TRAFFIC, BETWEEN, Aural::LevelOff),
    // the other lines of the table
    (CLIMB, CLEAR, Aural::ClearOfConflict),
    (LEVEL_AND_DESCENT, TRAFFIC, Aural::ClearOfConflict),
    (TRAFFIC, CLEAR, Aural::Silent),
    (TRAFFIC, TRAFFIC, Aural::Silent),
    (CLIMB, KEPT_CLIMB, Aural::Silent),
    (KEPT_CLIMB, CLIMB, Aural::ClimbClimb),
    (LEVEL_AND_DESCENT, LEVEL_AND_DESCENT, Aural::Silent),
    (LEVEL_AND_DESCENT, LEVEL_BOTH, Aural::LevelOff),
    (CLEAR, UP_2000, Aural::Monitor),
    (CLEAR, DOWN_1000, Aural::Monitor),
    (CLEAR, KEPT_UP_500, Aural::Monitor),
    (TRAFFIC, UP_LEVEL, Aural::LevelOff),
    (CLIMB, KEPT_UP_LEVEL, Aural::LevelOff),
    (INCREASED_DESCENT, KEPT_DOWN_LEVEL, Aural::LevelOff),
    (LEVEL_AND_DESCENT, DESCENT, Aural::DescendDescend),
    (CLEAR, KEPT_DESCENT, Aural::Maintain),
    (CLEAR, CROSSING_DESCENT, Aural::DescendCrossing),
];

#[test]
fn says_the_phrases(rt: HostRuntime) {
    assert_eq!(rt; first_unsaid(PHRASES), None);
}

// A strength of each sense, and the line where they are advised first.
type Word = (Option<Strength>, Option<Strength>, &'static str);

const WORDS: &[Word] = &[
    (
        Some(Strength::Limit2000),
        None,
        "r,1,400B02,UP-2000,Monitor vertical speed\n",
    ),
    (
        Some(Strength::Limit1000),
        None,
        "r,1,400B02,UP-1000,Monitor vertical speed\n",
    ),
    (
        Some(Strength::Limit500),
        None,
        "r,1,400B02,UP-500,Monitor vertical speed\n",
    ),
    (
        Some(Strength::Level),
        None,
        "r,1,400B02,UP-LEVEL,Level off level off\n",
    ),
    (
        Some(Strength::Positive),
        None,
        "r,1,400B02,UP-CLIMB,Climb climb\n",
    ),
    (
        Some(Strength::Increase),
        None,
        "r,1,400B02,UP-INCREASE,Increase climb\n",
    ),
    (
        None,
        Some(Strength::Limit2000),
        "r,1,400B02,DOWN-2000,Monitor vertical speed\n",
    ),
    (
        None,
        Some(Strength::Limit1000),
        "r,1,400B02,DOWN-1000,Monitor vertical speed\n",
    ),
    (
        None,
        Some(Strength::Limit500),
        "r,1,400B02,DOWN-500,Monitor vertical speed\n",
    ),
    (
        None,
        Some(Strength::Level),
        "r,1,400B02,DOWN-LEVEL,Level off level off\n",
    ),
    (
        None,
        Some(Strength::Increase),
        "r,1,400B02,DOWN-INCREASE,Increase descent\n",
    ),
];

// Whether this is the line from one composite to the next one. It is empty where there is no line.
fn says(own: Address, before: &Composite, after: &Composite, want: &str) -> bool {
    match line(1, own, before, after) {
        Some(told) => told.bytes() == want.as_bytes(),
        None => want.is_empty(),
    }
}

// The place of the first row with another line.
fn first_other(own: Address, words: &[Word]) -> Option<usize> {
    for place in 0..words.len() {
        let (up, down, want) = words[place];
        let after = Composite {
            up,
            down,
            corrective: true,
            ..CLEAR
        };
        if !says(own, &CLEAR, &after, want) {
            return Some(place);
        }
    }
    None
}

// A composite, the next one, and the line between them; none where it is empty.
type Change = (Composite, Composite, &'static str);

const CHANGES: &[Change] = &[
    (TRAFFIC, CLEAR, "r,1,400B02,CLEAR,-\n"),
    (
        LEVEL_AND_DESCENT,
        LEVEL_BOTH,
        "r,1,400B02,LEVEL-BOTH,Level off level off\n",
    ),
    (CLEAR, CLEAR, ""),
    (TRAFFIC, TRAFFIC, ""),
    (CLIMB, CLIMB, ""),
    (LEVEL_AND_DESCENT, LEVEL_AND_DESCENT, ""),
];

fn first_unlike(own: Address, changes: &[Change]) -> Option<usize> {
    for place in 0..changes.len() {
        let (before, after, want) = &changes[place];
        if !says(own, before, after, want) {
            return Some(place);
        }
    }
    None
}

#[test]
fn tells_words(rt: HostRuntime) -> Result<(), Fail> {
    let own = Address::new(0x40_0B02).ok_or("no address")?;
    assert_eq!(rt; first_other(own, WORDS), None);
    assert_eq!(rt; first_unlike(own, CHANGES), None);
    Ok(())
}
