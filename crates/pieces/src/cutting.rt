// A text, cut into its pieces.
ghost use Rattle.std.specs.Prelude.{◌≡◌, ◌<◌, ◌-◌, ◌^◌, IfOk, IfSome, MatchOption, None, Some, length, slice_get};
ghost use Rattle.pieces.specs.Pieces.{AreCut};

use crate::first::first_size;
use std::alloc::{AllocError, Global};
use std::marker::Model;

// Where a piece stands in the text: its first byte, and the one behind it.
#[derive(Clone, Copy)]
struct Range {
    start: u32,
    end: u32,
}

/// The pieces of a text, in order. It holds the text.
#[derive(Drop)]
pub struct Pieces {
    text: Vec<u8>,
    ranges: Vec<Range>,
}

impl Model for Pieces {
    ghost use Rattle.std.specs.Prelude.{List, ℕ};
    ghost use Rattle.pieces.specs.Ranges.{IsHeld, parts};

    ghost Value = { List (List ℕ) };

    ghost view = { λ pieces. parts pieces.text.items pieces.ranges.items };

    ghost invariant = { λ pieces. IsHeld pieces.text.items pieces.ranges.items };
}

impl Pieces {
    /// Cuts a text into its pieces, in time linear in its bytes. Memory is asked for by the number of pieces. The error
    /// says that it was wanting.
    pub fn of(alloc: Global, text: Vec<u8>) -> Result<Pieces, AllocError>
        requires { length text.items < 2 ^ 32 - 1 }
        ensures cut { IfOk result (λ pieces. AreCut pieces text.items) }
    {
        let mut ranges = Vec::new(alloc);
        let mut start = 0;
        while let Some(size) = first_size(&text[start..]) {
            let end = start + size;
            ranges.push(Range {
                start: start as u32,
                end: end as u32,
            })?;
            start = end;
        }
        Ok(Pieces { text, ranges })
    }

    /// How many pieces there are.
    pub fn count(&self) -> usize
        ensures value { result ≡ length self.now }
        ensures few { result < 2 ^ 32 }
    {
        self.ranges.len()
    }

    /// The piece at a place, from 0, or none past the last one.
    pub fn get(&self, place: usize) -> Option<&[u8]>
        ensures value { MatchOption result (slice_get self.now place ≡ None) (λ piece. slice_get self.now place ≡ Some piece.now) }
        ensures short { IfSome result (λ piece. length piece.now < 2 ^ 32 - 1) }
    {
        let range = self.ranges.get(place)?;
        Some(&self.text[range.start as usize..range.end as usize])
    }
}
