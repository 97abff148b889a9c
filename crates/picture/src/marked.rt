// The marks of the labels that are drawn.
ghost use Rattle.std.specs.Prelude.{◌≡◌, ◌+◌, ◌<◌, ◌≤◌, IfSome, length};
ghost use Rattle.picture.specs.Marked.{IsMarked, count_among, counted, is_from, marked_at};

use labels::Labels;

/// A mark of the labels: its place in the list of words, and its cycle.
#[derive(Clone, Copy)]
pub(crate) struct Marked {
    pub place: usize,
    pub cycle: u16,
}

// Whether a cycle lies from one to another one.
fn is_from(first: u16, last: u16, cycle: u32) -> bool
    ensures { result ≡ is_from first last cycle }
{
    u32::from(first) <= cycle && cycle <= u32::from(last)
}

/// The mark at a place of the list, where its cycle is one of the run.
#[tactic(auto, unfolding(crate::specs::Marked::marked_at))]
pub(crate) fn marked_at(labels: &Labels<'_>, cycles: u16, place: usize) -> Option<Marked>
    requires cycles { cycles ≤ 600 }
    requires place { place < length labels.now.marks }
    ensures value { result ≡ marked_at labels.now cycles place }
    ensures within { IfSome result (λ marked. IsMarked labels.now cycles marked) }
    ensures here { IfSome result (λ marked. marked.place ≡ place) }
{
    let cycle = labels.mark_cycle(place);
    if is_from(1, cycles, cycle) {
        return Some(Marked {
            place,
            cycle: cycle as u16,
        });
    }
    None
}

fn counted(more: bool, count: u32) -> u32
    requires { count < 1000 }
    ensures value { result ≡ counted more count }
    ensures most { result ≤ count + 1 }
{
    if more { count + 1 } else { count }
}

/// How many marks of the first places of the list are of a cycle from one to another one.
pub(crate) fn count_among(labels: &Labels<'_>, first: u16, last: u16, places: usize) -> u32
    requires places { places ≤ length labels.now.marks }
    requires few { places ≤ 26 }
    ensures value { result ≡ count_among labels.now first last places }
    ensures most { result ≤ places }
{
    let mut count = 0;
    for place in 0..places {
        let more = is_from(first, last, labels.mark_cycle(place));
        count = counted(more, count);
    }
    count
}
