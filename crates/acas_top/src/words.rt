// The commands, and the words that say them.
ghost use Rattle.std.specs.Prelude.{◌≡◌, ◌≢◌, [], ◌∷◌, codes, IfNone, IfSome, map};
ghost use Rattle.std.specs.String.{string_bytes};
ghost use Rattle.acas_base.specs.declared.setting.Profile.{Profile};
ghost use Rattle.acas_top.specs.Commands.{OfPlain, OfRun};
ghost use Rattle.acas_top.specs.Words.{AreNoFlight, AreNoPicture, AreNoPlain, AreNoRun, IsInRange, Say, SayFlight, SayPage, SayPicture, greatest, most, plain_limit, profile_words, tool_word};
ghost use Rattle.acas_top.specs.declared.words.Page.{Page};
ghost use Rattle.acas_top.specs.declared.words.Tool.{Tool};
ghost use Rattle.pair_ways.specs.declared.scope.Scope.{Scope};
ghost use Rattle.possibilities.specs.Listing.{scope_word};

use acas_base::{CRAFTS, Profile};
use acas_text::parse_within;
use address_words::are_addresses;
use fault_text::begins_recording;
use labels::Labels;
use pair_ways::Scope;
use report_words::Wanted;
use variation_words::Variation;

/// The most bytes that a command reads of an encounter's text.
pub const ENCOUNTER_BYTES: usize = 16_777_216;

/// The most bytes that a command reads of a recording.
pub const RECORDING_BYTES: usize = 67_108_864;

/// How much a command reads at most.
#[derive(Clone, Copy)]
pub enum Limit {
    /// As much as the text of an encounter may have.
    Encounter,
    /// As much as a recording may have.
    Recording,
    /// As much as a recording, where the bytes begin as one, and else as much as the text of an encounter.
    Either,
}

/// What reads a recording, and writes a text about it.
#[derive(Clone, Copy)]
pub enum Tool {
    /// `messages`: each resolution message, and what became of its copies, as a table.
    Messages,
    /// `picture`: the advisories of each aircraft against time, drawn as SVG, without labels.
    Picture,
    /// `places`: where each aircraft was in each cycle, and what its crew was advised, as a table.
    Places,
    /// `reports`: the RA report blocks that the aircraft would have downlinked.
    Reports,
    /// `response`: how near the aircraft would have come, had each flown with the modelled response to its advisories.
    Response,
    /// `summary`: the page that one reads first: who met whom, who was advised what, and what became of the messages.
    Summary,
    /// `watch`: each interval in which two coordinating aircraft had equal senses, and its cause.
    Watch,
    /// `why`: why each cell is what it is.
    Why,
}

/// What runs an encounter in threads, one for each of its active aircraft.
#[derive(Clone, Copy)]
pub enum Threaded {
    /// `play`: writes the recording of the run.
    Play,
    /// `sum`: writes how many commits the run has, and the counts of the serial run.
    Sum,
}

/// What the program says of itself.
#[derive(Clone, Copy)]
pub enum Page {
    /// `--help`, `-h` or `help`: how to use the program.
    Help,
    /// `--version`: the versions of the program and of its formats.
    Version,
}

/// A command that never waits for another thread's step.
#[derive(Clone, Copy)]
pub enum Plain {
    /// `serial`: reads an encounter, and writes the recording of its serial run.
    Serial,
    /// `audit`: reads a recording, and writes whether it is one of a legal and complete journal.
    Audit,
    /// `gen NUMBER CRAFTS CYCLES [2]`: reads nothing, and writes the encounter that is made from a number, with this
    /// many aircraft (1 to 16) and cycles (1 to 600), for profile 1, or for profile 2 where the words end in `2`.
    Gen {
        number: u32,
        crafts: u8,
        cycles: u16,
        profile: Profile,
    },
    /// The word of a tool: reads a recording, and writes the tool's text about it.
    Tell(Tool),
    /// `sweep NUMBER COUNT CRAFTS CYCLES [2]`: reads nothing, plays the encounters that `gen` makes from this many
    /// numbers (1 to 4,096) from a first one on, with this many aircraft (1 to 4) and cycles (1 to 120), and writes the
    /// counts of each.
    Sweep {
        number: u32,
        count: u16,
        crafts: u8,
        cycles: u16,
        profile: Profile,
    },
    /// `resume`: reads a beginning of a recording, and writes the recording of its run, completed.
    Resume,
    /// `vary ..`: reads an encounter, plays it with one thing changed at a time, and writes what each run comes to.
    Vary(Variation),
    /// `orders` or `losses`: reads an encounter, and writes what each aircraft can advise in any order of the steps; or
    /// whatever messages are lost besides.
    Possible(Scope),
    /// `instance ..`: reads an encounter, and writes the recording of a run that has what is wanted, in some order of
    /// the steps; or where losses are asked about, with messages lost.
    Instance(Scope, Wanted),
    /// `many`: reads encounters, one after the other, plays each, and writes what each run comes to.
    Many,
    /// `tracks`: reads recorded tracks, and writes the encounter whose aircraft fly along them.
    Tracks,
    /// `compare`: reads two recordings, one after the other, and writes what differs between them.
    Compare,
    /// `decode WORD`: reads nothing, and writes what a word of fourteen digits 0-9A-F says.
    Decode {
        word: u64,
    },
    /// `explain`: reads an encounter or a recording, and writes what is wrong with it, or that nothing is.
    Explain,
    /// The words that ask for a page: reads nothing, and writes the page.
    Show(Page),
}

impl Limit {
    /// The most bytes that are read, whatever they are.
    pub(crate) fn greatest(self) -> usize
        ensures { result ≡ greatest self }
    {
        match self {
            Limit::Encounter => ENCOUNTER_BYTES,
            Limit::Recording | Limit::Either => RECORDING_BYTES,
        }
    }

    /// The most bytes that these may be.
    pub(crate) fn most(self, bytes: &[u8]) -> usize
        ensures { result ≡ most self bytes.now }
    {
        match self {
            Limit::Encounter => ENCOUNTER_BYTES,
            Limit::Recording => RECORDING_BYTES,
            Limit::Either => {
                if begins_recording(bytes) {
                    return RECORDING_BYTES;
                }
                ENCOUNTER_BYTES
            }
        }
    }
}

impl Plain {
    /// How much the command reads at most, or none where it reads nothing.
    // Each word has an arm of its own: a proof by the cases of arms that several words share takes minutes.
    pub fn limit(self) -> Option<Limit>
        ensures { result ≡ plain_limit self }
    {
        match self {
            Plain::Serial => Some(Limit::Encounter),
            Plain::Tracks => Some(Limit::Encounter),
            Plain::Vary(_) => Some(Limit::Encounter),
            Plain::Possible(_) => Some(Limit::Encounter),
            Plain::Instance(_, _) => Some(Limit::Encounter),
            Plain::Audit => Some(Limit::Recording),
            Plain::Tell(_) => Some(Limit::Recording),
            Plain::Resume => Some(Limit::Recording),
            Plain::Compare => Some(Limit::Recording),
            Plain::Many => Some(Limit::Recording),
            Plain::Explain => Some(Limit::Either),
            Plain::Gen { .. } => None,
            Plain::Sweep { .. } => None,
            Plain::Decode { .. } => None,
            Plain::Show(_) => None,
        }
    }
}

// The tool of a word.
fn tool_of(word: &str) -> Option<Tool>
    ensures some { IfSome result (λ tool. word.now ≡ tool_word tool) }
    ensures none { IfNone result ((tool : Tool) → word.now ≢ tool_word tool) }
{
    if word == "messages" {
        return Some(Tool::Messages);
    }
    if word == "picture" {
        return Some(Tool::Picture);
    }
    if word == "places" {
        return Some(Tool::Places);
    }
    if word == "reports" {
        return Some(Tool::Reports);
    }
    if word == "response" {
        return Some(Tool::Response);
    }
    if word == "summary" {
        return Some(Tool::Summary);
    }
    if word == "watch" {
        return Some(Tool::Watch);
    }
    if word == "why" {
        return Some(Tool::Why);
    }
    None
}

// The runs that a word asks about.
fn scope_of(word: &str) -> Option<Scope>
    ensures some { IfSome result (λ scope. word.now ≡ scope_word scope) }
    ensures none { IfNone result ((scope : Scope) → word.now ≢ scope_word scope) }
{
    if word == "orders" {
        return Some(Scope::Orders);
    }
    if word == "losses" {
        return Some(Scope::Losses);
    }
    None
}

// The page that a word asks for.
fn page_of(word: &str) -> Option<Page>
    ensures some { IfSome result (λ page. SayPage (word.now ∷ []) page) }
    ensures none { IfNone result ((page : Page) → SayPage (word.now ∷ []) page → ⊥) }
{
    if word == "--help" {
        return Some(Page::Help);
    }
    if word == "-h" {
        return Some(Page::Help);
    }
    if word == "help" {
        return Some(Page::Help);
    }
    if word == "--version" {
        return Some(Page::Version);
    }
    None
}

// The run in threads of a word.
fn threaded_of(word: &str) -> Option<Threaded>
    ensures some { IfSome result (λ run. Say (word.now ∷ []) (OfRun run)) }
    ensures none { IfNone result (AreNoRun (word.now ∷ [])) }
{
    if word == "play" {
        return Some(Threaded::Play);
    }
    if word == "sum" {
        return Some(Threaded::Sum);
    }
    None
}

// The plain command of one word.
fn of_one(word: &str) -> Option<Plain>
    ensures some { IfSome result (λ plain. Say (word.now ∷ []) (OfPlain plain)) }
    ensures valid { IfSome result IsInRange }
    ensures none { IfNone result (AreNoPlain (word.now ∷ [])) }
{
    if word == "serial" {
        return Some(Plain::Serial);
    }
    if word == "audit" {
        return Some(Plain::Audit);
    }
    if word == "resume" {
        return Some(Plain::Resume);
    }
    if word == "compare" {
        return Some(Plain::Compare);
    }
    if word == "explain" {
        return Some(Plain::Explain);
    }
    if word == "tracks" {
        return Some(Plain::Tracks);
    }
    if word == "many" {
        return Some(Plain::Many);
    }
    match tool_of(word) {
        Some(tool) => Some(Plain::Tell(tool)),
        None => match scope_of(word) {
            Some(scope) => Some(Plain::Possible(scope)),
            None => match page_of(word) {
                Some(page) => Some(Plain::Show(page)),
                None => None,
            },
        },
    }
}

// The word that `decode` tells.
fn decode_of(digits: &str) -> Option<Plain>
    ensures some { IfSome result (λ plain. Say (codes "decode" ∷ digits.now ∷ []) (OfPlain plain)) }
    ensures valid { IfSome result IsInRange }
    ensures none { IfNone result (AreNoPlain (codes "decode" ∷ digits.now ∷ [])) }
{
    let word = word_text::parse(digits.as_bytes())?;
    Some(Plain::Decode { word })
}

// The variation of one word.
fn vary_one(word: &str) -> Option<Plain>
    ensures some { IfSome result (λ plain. Say (codes "vary" ∷ word.now ∷ []) (OfPlain plain)) }
    ensures valid { IfSome result IsInRange }
    ensures none { IfNone result (AreNoPlain (codes "vary" ∷ word.now ∷ [])) }
{
    let variation = variation_words::of_one(word)?;
    Some(Plain::Vary(variation))
}

// The variation of five words.
fn vary_five(quantity: &str, address: &str, first: &str, count: &str, step: &str) -> Option<Plain>
    ensures some { IfSome result (λ plain. Say (codes "vary" ∷ quantity.now ∷ address.now ∷ first.now ∷ count.now ∷ step.now ∷ []) (OfPlain plain)) }
    ensures valid { IfSome result IsInRange }
    ensures none { IfNone result (AreNoPlain (codes "vary" ∷ quantity.now ∷ address.now ∷ first.now ∷ count.now ∷ step.now ∷ [])) }
{
    let variation = variation_words::of_five(quantity, address, first, count, step)?;
    Some(Plain::Vary(variation))
}

// The plain command of two words.
fn of_two(word: &str, other: &str) -> Option<Plain>
    ensures some { IfSome result (λ plain. Say (word.now ∷ other.now ∷ []) (OfPlain plain)) }
    ensures valid { IfSome result IsInRange }
    ensures none { IfNone result (AreNoPlain (word.now ∷ other.now ∷ [])) }
{
    if word == "decode" {
        return decode_of(other);
    }
    if word == "vary" {
        return vary_one(other);
    }
    None
}

// The profile that a last word names. No word names profile 1.
fn profile_of(word: &str) -> Option<Profile>
    ensures some { IfSome result (λ profile. word.now ∷ [] ≡ profile_words profile) }
    ensures none { IfNone result ((profile : Profile) → word.now ∷ [] ≢ profile_words profile) }
{
    if word == "2" {
        return Some(Profile::Two);
    }
    None
}

// The encounter of three numbers, for a profile.
fn gen_of(number: &str, crafts: &str, cycles: &str, profile: Profile) -> Option<Plain>
    ensures some { IfSome result (λ plain. Say (codes "gen" ∷ number.now ∷ crafts.now ∷ cycles.now ∷ profile_words profile) (OfPlain plain)) }
    ensures valid { IfSome result IsInRange }
    ensures none { IfNone result (AreNoPlain (codes "gen" ∷ number.now ∷ crafts.now ∷ cycles.now ∷ profile_words profile)) }
{
    let number = parse_within(number.as_bytes(), 0, u32::MAX)?;
    let crafts = parse_within(crafts.as_bytes(), 1, CRAFTS as u32)?;
    let cycles = parse_within(cycles.as_bytes(), 1, 600)?;
    Some(Plain::Gen {
        number,
        crafts: crafts as u8,
        cycles: cycles as u16,
        profile,
    })
}

// The encounter of three numbers and a profile.
fn gen_in(number: &str, crafts: &str, cycles: &str, profile: &str) -> Option<Plain>
    ensures some { IfSome result (λ plain. Say (codes "gen" ∷ number.now ∷ crafts.now ∷ cycles.now ∷ profile.now ∷ []) (OfPlain plain)) }
    ensures valid { IfSome result IsInRange }
    ensures none { IfNone result (AreNoPlain (codes "gen" ∷ number.now ∷ crafts.now ∷ cycles.now ∷ profile.now ∷ [])) }
{
    let profile = profile_of(profile)?;
    gen_of(number, crafts, cycles, profile)
}

// The plain command of a word and three numbers.
fn of_four(word: &str, number: &str, crafts: &str, cycles: &str) -> Option<Plain>
    ensures some { IfSome result (λ plain. Say (word.now ∷ number.now ∷ crafts.now ∷ cycles.now ∷ []) (OfPlain plain)) }
    ensures valid { IfSome result IsInRange }
    ensures none { IfNone result (AreNoPlain (word.now ∷ number.now ∷ crafts.now ∷ cycles.now ∷ [])) }
{
    if word == "gen" {
        return gen_of(number, crafts, cycles, Profile::One);
    }
    None
}

// What a run is wanted for.
fn instance_of(scope: &str, first: &str, second: &str, third: &str) -> Option<Plain>
    ensures some { IfSome result (λ plain. Say (codes "instance" ∷ scope.now ∷ first.now ∷ second.now ∷ third.now ∷ []) (OfPlain plain)) }
    ensures valid { IfSome result IsInRange }
    ensures none { IfNone result (AreNoPlain (codes "instance" ∷ scope.now ∷ first.now ∷ second.now ∷ third.now ∷ [])) }
{
    let scope = scope_of(scope)?;
    let wanted = report_words::of_three(first, second, third)?;
    Some(Plain::Instance(scope, wanted))
}

// The sweep of four numbers, for a profile.
fn sweep_of(
    number: &str,
    count: &str,
    crafts: &str,
    cycles: &str,
    profile: Profile,
) -> Option<Plain>
    ensures some { IfSome result (λ plain. Say (codes "sweep" ∷ number.now ∷ count.now ∷ crafts.now ∷ cycles.now ∷ profile_words profile) (OfPlain plain)) }
    ensures valid { IfSome result IsInRange }
    ensures none { IfNone result (AreNoPlain (codes "sweep" ∷ number.now ∷ count.now ∷ crafts.now ∷ cycles.now ∷ profile_words profile)) }
{
    let number = parse_within(number.as_bytes(), 0, u32::MAX)?;
    let count = parse_within(count.as_bytes(), 1, 4_096)?;
    let crafts = parse_within(crafts.as_bytes(), 1, 4)?;
    let cycles = parse_within(cycles.as_bytes(), 1, 120)?;
    Some(Plain::Sweep {
        number,
        count: count as u16,
        crafts: crafts as u8,
        cycles: cycles as u16,
        profile,
    })
}

// The sweep of four numbers and a profile.
fn sweep_in(number: &str, count: &str, crafts: &str, cycles: &str, profile: &str) -> Option<Plain>
    ensures some { IfSome result (λ plain. Say (codes "sweep" ∷ number.now ∷ count.now ∷ crafts.now ∷ cycles.now ∷ profile.now ∷ []) (OfPlain plain)) }
    ensures valid { IfSome result IsInRange }
    ensures none { IfNone result (AreNoPlain (codes "sweep" ∷ number.now ∷ count.now ∷ crafts.now ∷ cycles.now ∷ profile.now ∷ [])) }
{
    let profile = profile_of(profile)?;
    sweep_of(number, count, crafts, cycles, profile)
}

// The plain command of five words.
fn of_five(word: &str, number: &str, count: &str, crafts: &str, cycles: &str) -> Option<Plain>
    ensures some { IfSome result (λ plain. Say (word.now ∷ number.now ∷ count.now ∷ crafts.now ∷ cycles.now ∷ []) (OfPlain plain)) }
    ensures valid { IfSome result IsInRange }
    ensures none { IfNone result (AreNoPlain (word.now ∷ number.now ∷ count.now ∷ crafts.now ∷ cycles.now ∷ [])) }
{
    if word == "gen" {
        return gen_in(number, count, crafts, cycles);
    }
    if word == "sweep" {
        return sweep_of(number, count, crafts, cycles, Profile::One);
    }
    if word == "instance" {
        return instance_of(number, count, crafts, cycles);
    }
    None
}

// The plain command of six words.
fn of_six(
    word: &str,
    quantity: &str,
    address: &str,
    first: &str,
    count: &str,
    step: &str,
) -> Option<Plain>
    ensures some { IfSome result (λ plain. Say (word.now ∷ quantity.now ∷ address.now ∷ first.now ∷ count.now ∷ step.now ∷ []) (OfPlain plain)) }
    ensures valid { IfSome result IsInRange }
    ensures none { IfNone result (AreNoPlain (word.now ∷ quantity.now ∷ address.now ∷ first.now ∷ count.now ∷ step.now ∷ [])) }
{
    if word == "sweep" {
        return sweep_in(quantity, address, first, count, step);
    }
    if word == "vary" {
        return vary_five(quantity, address, first, count, step);
    }
    None
}

/// The plain command that the words say, or none where they say none.
pub(crate) fn parse_plain(words: &[String]) -> Option<Plain>
    ensures some { IfSome result (λ plain. Say (map string_bytes words.now) (OfPlain plain)) }
    ensures valid { IfSome result IsInRange }
    ensures none { IfNone result (AreNoPlain (map string_bytes words.now)) }
{
    match words {
        [word] => of_one(word.as_str()),
        [word, digits] => of_two(word.as_str(), digits.as_str()),
        [word, number, crafts, cycles] => of_four(
            word.as_str(),
            number.as_str(),
            crafts.as_str(),
            cycles.as_str(),
        ),
        [word, number, count, crafts, cycles] => of_five(
            word.as_str(),
            number.as_str(),
            count.as_str(),
            crafts.as_str(),
            cycles.as_str(),
        ),
        [word, quantity, address, first, count, step] => of_six(
            word.as_str(),
            quantity.as_str(),
            address.as_str(),
            first.as_str(),
            count.as_str(),
            step.as_str(),
        ),
        _ => None,
    }
}

/// The addresses that `fly` names, or none where the words don't say `fly` and addresses.
pub(crate) fn parse_flight(words: &[String]) -> Option<&[String]>
    ensures some { IfSome result (λ names. SayFlight (map string_bytes words.now) (map string_bytes names.now)) }
    ensures none { IfNone result (AreNoFlight (map string_bytes words.now)) }
{
    match words {
        [word, names @ ..] => {
            if word.as_str() == "fly" && are_addresses(names) {
                return Some(names);
            }
            None
        }
        [] => None,
    }
}

/// The labels that `picture` has, or none where the words don't say `picture` and labels.
pub(crate) fn parse_picture(words: &[String]) -> Option<Labels<'_>>
    ensures some { IfSome result (SayPicture (map string_bytes words.now)) }
    ensures none { IfNone result (AreNoPicture (map string_bytes words.now)) }
{
    match words {
        [word, labels @ ..] => {
            if word.as_str() == "picture" && !labels.is_empty() {
                return Labels::parse(labels);
            }
            None
        }
        [] => None,
    }
}

/// The run in threads that the words say, or none where they say none.
pub(crate) fn parse_threaded(words: &[String]) -> Option<Threaded>
    ensures some { IfSome result (λ run. Say (map string_bytes words.now) (OfRun run)) }
    ensures none { IfNone result (AreNoRun (map string_bytes words.now)) }
{
    match words {
        [word] => threaded_of(word.as_str()),
        _ => None,
    }
}
