// What one record of tracks says.
use acas_base::Address;
use enc_file::Record;
use track_file::Point;

/// A record of a text of tracks, read by itself. Its fields are in their ranges.
#[derive(Clone, Copy)]
pub enum TrackRecord {
    /// A record that the text of an encounter has, too. The header stands for that of format 2 or 3, and an aircraft
    /// is at rest at zero.
    Shared(Record),
    /// Where the aircraft with an address was at a time.
    At { address: Address, point: Point },
}
