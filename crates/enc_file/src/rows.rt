// The records of a text, each as its fields.
ghost use Rattle.std.specs.Prelude.{◌≡◌, ◌≤◌, [], IfOk, OnErr, length};
ghost use Rattle.csv.specs.Records.{fields_of};
ghost use Rattle.enc_file.specs.Records.{records_of};
ghost use Rattle.enc_file.specs.Rows.{after_read};

use csv::{ByteRecord, Reader, ReaderBuilder};
use std::alloc::{AllocError, Global};
use std::marker::Model;

/// The records of a text that are still to come. Fields stand between commas. There is no header row, and a quote is a
/// byte like any other. A byte order mark at the start of the text is skipped, and so are blank lines.
#[derive(Drop)]
pub struct Rows<'a> {
    reader: Reader<&'a [u8]>,
}

impl<'a> Model for Rows<'a> {
    ghost use Rattle.std.specs.Prelude.{List, ℕ};
    ghost use Rattle.enc_file.specs.Rows.{IsPlain, rows_left};

    ghost Value = { List (List (List ℕ)) };

    ghost view = { λ a. rows_left a.reader };

    ghost invariant = { λ a. IsPlain a.reader };
}

impl<'a> Rows<'a> {
    /// All records of a text. There are no more records than bytes.
    pub fn of(alloc: Global, text: &'a [u8]) -> Rows<'a>
        ensures rows { result ≡ records_of text.now }
        ensures few { length result ≤ length text.now }
    {
        Rows {
            reader: ReaderBuilder::new()
                .has_headers(false)
                .flexible(true)
                .quoting(false)
                .from_reader(alloc, text),
        }
    }

    /// Reads the next record into `row`, and gives whether there was one. The error says that memory was wanting. After
    /// it no record is left.
    pub fn read(&mut self, row: &mut ByteRecord) -> Result<bool, AllocError>
        ensures read { IfOk result (λ found. self.old ≡ after_read found (fields_of row.new) self.new) }
        ensures failed { OnErr result (self.new ≡ []) }
    {
        self.reader.read_byte_record(row).map_err(|_| AllocError)
    }
}
