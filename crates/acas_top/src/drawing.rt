// What answers `picture` with labels.
ghost use Rattle.std.specs.Prelude.{◌≡◌, ◌≤◌, IfOk, length};
ghost use Rattle.acas_top.specs.Drawing.{IsDrawable};
ghost use Rattle.acas_top.specs.Ends.{WasPut};
ghost use Rattle.picture.specs.Picture.{picture_text};

use crate::streams::status_after;
use crate::{RECORDING_BYTES, Status};
use acas_io::Sink;
use deliveries::Deliveries;
use labels::Labels;
use rec_audit::{Loaded, Reason, load};
use std::alloc::{AllocError, Global};

/// What a picture is drawn of.
#[derive(Drop)]
pub(crate) enum Drawable {
    /// A recording, with what became of its messages.
    Legal(Deliveries),
    /// None: the number of the first wrong line, and why it is wrong.
    Wrong(u32, Reason),
}

/// What the bytes give to draw. The error says that memory was wanting.
pub(crate) fn load_drawable(alloc: Global, bytes: &[u8]) -> Result<Drawable, AllocError>
    requires { length bytes.now ≤ RECORDING_BYTES }
    ensures { IfOk result (IsDrawable bytes.now) }
{
    match load(alloc, bytes)? {
        Loaded::Legal(state) => Ok(Drawable::Legal(Deliveries::new(alloc, state)?)),
        Loaded::Wrong(line, reason) => Ok(Drawable::Wrong(line, reason)),
    }
}

/// Writes the picture of a recording, and gives the status with which the command ends.
pub(crate) fn write_picture<K: Sink>(
    deliveries: &Deliveries,
    labels: &Labels<'_>,
    sink: &mut K,
) -> Status
    ensures { WasPut result Status.Done (picture_text labels.now deliveries.now.encounter deliveries.now.journal) (K.written sink.old) (K.written sink.new) (K.faults sink.old) (K.faults sink.new) }
{
    status_after(Status::Done, picture::write(deliveries, labels, sink))
}
