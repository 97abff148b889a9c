// What is known of a possibility.
ghost use Rattle.std.specs.Prelude.{◌≡◌, ◌≤◌, length};
ghost use Rattle.possibilities.specs.Listing.{is_open, is_same_mark, mark_by, mark_letter, mark_number};

/// What is known of something that is possible, in short.
#[derive(Clone, Copy)]
pub(crate) enum Mark {
    /// Nothing else is.
    Always,
    /// The run that is given has it, and something else is possible, too.
    Serial,
    /// The run that is given has something else, and another run was seen to have it.
    Other,
    /// It isn't excluded, and no run was seen to have it.
    Unshown,
}

/// What is known of something that is possible.
#[derive(Clone, Copy)]
pub(crate) struct Known {
    /// Nothing else is.
    pub only: bool,
    /// The run that is given has it.
    pub serial: bool,
    /// A run that was shown has it.
    pub shown: bool,
}

impl Known {
    /// In short.
    pub(crate) fn mark(self) -> Mark
        ensures { result ≡ mark_by self.only self.serial self.shown }
    {
        if self.only {
            Mark::Always
        } else if self.serial {
            Mark::Serial
        } else if self.shown {
            Mark::Other
        } else {
            Mark::Unshown
        }
    }
}

impl Mark {
    fn number(self) -> u8
        ensures { result ≡ mark_number self }
    {
        match self {
            Mark::Always => 0,
            Mark::Serial => 1,
            Mark::Other => 2,
            Mark::Unshown => 3,
        }
    }

    /// Its letter.
    pub(crate) fn letter(self) -> &'static str
        ensures text { result.now ≡ mark_letter self }
        ensures short { length result.now ≤ 1 }
    {
        match self {
            Mark::Always => "a",
            Mark::Serial => "s",
            Mark::Other => "o",
            Mark::Unshown => "?",
        }
    }
}

/// Whether there are two marks, and they are the same.
pub(crate) fn is_same_mark(one: Option<Mark>, other: Option<Mark>) -> bool
    ensures { result ≡ is_same_mark one other }
{
    match one {
        Some(one) => match other {
            Some(other) => one.number() == other.number(),
            None => false,
        },
        None => false,
    }
}

/// Whether there is a mark that says that no run was seen to have it.
pub(crate) fn is_open(mark: Option<Mark>) -> bool
    ensures { result ≡ is_open mark }
{
    is_same_mark(mark, Some(Mark::Unshown))
}
