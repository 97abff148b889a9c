// The fields of the records, by name, and what has to stand in them. Two of them are of recorded tracks.
ghost use Rattle.std.specs.Prelude.{◌≡◌, ◌≤◌, length};
ghost use Rattle.fault_text.specs.Names.{content_of, name_text, names_of, word_text};

/// A kind of record after the header.
#[derive(Clone, Copy)]
pub enum RecordKind {
    Run,
    Gains,
    Craft,
    Climb,
    Leg,
    Miss,
    Plan,
    Fate,
    End,
    Profile,
    Name,
    Clock,
    Call,
}

/// A field after the first one, which names the kind.
#[derive(Clone, Copy)]
pub enum FieldName {
    Cycles,
    Ground,
    Alpha,
    Beta,
    Address,
    Kind,
    X,
    Y,
    Alt,
    Limit,
    From,
    Vx,
    Vy,
    Vz,
    Own,
    Target,
    To,
    Sender,
    Receiver,
    Number,
    Hold,
    Mask,
    /// The number of a profile.
    Profile,
    /// The text of a name.
    Label,
    /// A time of day.
    Clock,
    /// A call sign.
    Sign,
    /// The time of a point of a recorded track.
    Ms,
    /// The altitude of such a point.
    Z,
}

/// What has to stand in a field.
#[derive(Clone, Copy)]
pub(crate) enum Content {
    /// A whole number from `low` to `high`.
    Whole { low: i32, high: i32 },
    /// The word of an aircraft's kind.
    Kind,
    /// The address of an aircraft.
    Address,
    /// The mask of a copy.
    Mask,
    /// The number of a profile.
    Profile,
    /// The text of a label.
    Label,
    /// A time of day.
    Clock,
    /// A call sign.
    Sign,
}

impl FieldName {
    /// What has to stand in it.
    pub(crate) fn content(self) -> Content
        ensures { result ≡ content_of self }
    {
        match self {
            FieldName::Cycles | FieldName::From | FieldName::To | FieldName::Number => {
                Content::Whole { low: 1, high: 600 }
            }
            FieldName::Ground => Content::Whole {
                low: -1_000,
                high: 15_000,
            },
            FieldName::Alpha | FieldName::Beta => Content::Whole { low: 0, high: 1024 },
            FieldName::X | FieldName::Y => Content::Whole {
                low: -1_000_000,
                high: 1_000_000,
            },
            FieldName::Alt | FieldName::Limit => Content::Whole {
                low: -1_000,
                high: 60_000,
            },
            FieldName::Vx | FieldName::Vy => Content::Whole {
                low: -2_000,
                high: 2_000,
            },
            FieldName::Vz => Content::Whole {
                low: -10_000,
                high: 10_000,
            },
            FieldName::Hold => Content::Whole { low: 0, high: 60 },
            FieldName::Ms => Content::Whole {
                low: -1_000_000,
                high: 1_000_000,
            },
            FieldName::Z => Content::Whole {
                low: -60_000,
                high: 3_600_000,
            },
            FieldName::Kind => Content::Kind,
            FieldName::Mask => Content::Mask,
            FieldName::Profile => Content::Profile,
            FieldName::Label => Content::Label,
            FieldName::Clock => Content::Clock,
            FieldName::Sign => Content::Sign,
            FieldName::Address
            | FieldName::Own
            | FieldName::Target
            | FieldName::Sender
            | FieldName::Receiver => Content::Address,
        }
    }

    /// Its name, as the table of records has it.
    pub(crate) fn text(self) -> &'static str
        ensures text { result.now ≡ name_text self }
        ensures short { length result.now ≤ 8 }
    {
        match self {
            FieldName::Cycles => "CYCLES",
            FieldName::Ground => "GROUND",
            FieldName::Alpha => "ALPHA",
            FieldName::Beta => "BETA",
            FieldName::Address => "ADDRESS",
            FieldName::Kind => "KIND",
            FieldName::X => "X",
            FieldName::Y => "Y",
            FieldName::Alt => "ALT",
            FieldName::Limit => "LIMIT",
            FieldName::From => "FROM",
            FieldName::Vx => "VX",
            FieldName::Vy => "VY",
            FieldName::Vz => "VZ",
            FieldName::Own => "OWN",
            FieldName::Target => "TARGET",
            FieldName::To => "TO",
            FieldName::Sender => "SENDER",
            FieldName::Receiver => "RECEIVER",
            FieldName::Number => "NUMBER",
            FieldName::Hold => "HOLD",
            FieldName::Mask => "MASK",
            FieldName::Profile => "NUMBER",
            FieldName::Label => "TEXT",
            FieldName::Clock => "HH:MM:SS",
            FieldName::Sign => "NAME",
            FieldName::Ms => "MS",
            FieldName::Z => "Z",
        }
    }
}

impl RecordKind {
    /// The word that names it.
    pub(crate) fn word(self) -> &'static str
        ensures text { result.now ≡ word_text self }
        ensures short { length result.now ≤ 7 }
    {
        match self {
            RecordKind::Run => "run",
            RecordKind::Gains => "gains",
            RecordKind::Craft => "craft",
            RecordKind::Climb => "climb",
            RecordKind::Leg => "leg",
            RecordKind::Miss => "miss",
            RecordKind::Plan => "plan",
            RecordKind::Fate => "fate",
            RecordKind::End => "end",
            RecordKind::Profile => "profile",
            RecordKind::Name => "name",
            RecordKind::Clock => "clock",
            RecordKind::Call => "call",
        }
    }

    /// Its fields after the first one, with those of three copies where it has copies.
    pub(crate) fn names(self) -> &'static [FieldName]
        ensures names { result.now ≡ names_of self }
        ensures few { length result.now ≤ 9 }
    {
        match self {
            RecordKind::Run => &[FieldName::Cycles, FieldName::Ground],
            RecordKind::Gains => &[
                FieldName::Alpha,
                FieldName::Beta,
                FieldName::Alpha,
                FieldName::Beta,
            ],
            RecordKind::Craft => &[
                FieldName::Address,
                FieldName::Kind,
                FieldName::X,
                FieldName::Y,
                FieldName::Alt,
            ],
            RecordKind::Climb => &[FieldName::Address, FieldName::Limit],
            RecordKind::Leg => &[
                FieldName::Address,
                FieldName::From,
                FieldName::Vx,
                FieldName::Vy,
                FieldName::Vz,
            ],
            RecordKind::Miss => &[
                FieldName::Own,
                FieldName::Target,
                FieldName::From,
                FieldName::To,
            ],
            RecordKind::Plan => &[
                FieldName::Sender,
                FieldName::Receiver,
                FieldName::Hold,
                FieldName::Mask,
                FieldName::Hold,
                FieldName::Mask,
                FieldName::Hold,
                FieldName::Mask,
            ],
            RecordKind::Fate => &[
                FieldName::Sender,
                FieldName::Receiver,
                FieldName::Number,
                FieldName::Hold,
                FieldName::Mask,
                FieldName::Hold,
                FieldName::Mask,
                FieldName::Hold,
                FieldName::Mask,
            ],
            RecordKind::End => &[],
            RecordKind::Profile => &[FieldName::Profile],
            RecordKind::Name => &[FieldName::Label],
            RecordKind::Clock => &[FieldName::Clock],
            RecordKind::Call => &[FieldName::Address, FieldName::Sign],
        }
    }
}
