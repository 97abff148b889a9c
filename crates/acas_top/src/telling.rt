// The tools' texts.
ghost use Rattle.std.specs.Prelude.{◌≡◌, IfOk};
ghost use Rattle.acas_top.specs.Given.{told_lines};
ghost use Rattle.acas_top.specs.Telling.{tool_lines};

use crate::words::Tool;
use acas_lines::{LineSink, Text};
use air_journal::AirState;
use deliveries::Deliveries;
use journal_tables::{Messages, Places};
use labels::Labels;
use pair_watch::Watch;
use picture::Picture;
use ra_report::Reports;
use reasons::Reasons;
use response::Response;
use std::alloc::{AllocError, Global};
use summary::Summary;

/// A tool's text about a recording.
#[derive(Drop)]
pub(crate) enum Told {
    Messages(Messages),
    Picture(Deliveries),
    Places(AirState),
    Reports(AirState),
    Response(AirState),
    Summary(Deliveries),
    Watch(AirState),
    Why(AirState),
}

/// The text of a tool about the recording of a state. The error says that memory was wanting.
pub(crate) fn told_by(alloc: Global, tool: Tool, state: AirState) -> Result<Told, AllocError>
    ensures { IfOk result (λ told. told_lines told ≡ tool_lines tool state.encounter state.journal) }
{
    match tool {
        Tool::Messages => Ok(Told::Messages(Messages::new(alloc, state)?)),
        Tool::Picture => Ok(Told::Picture(Deliveries::new(alloc, state)?)),
        Tool::Places => Ok(Told::Places(state)),
        Tool::Reports => Ok(Told::Reports(state)),
        Tool::Response => Ok(Told::Response(state)),
        Tool::Summary => Ok(Told::Summary(Deliveries::new(alloc, state)?)),
        Tool::Watch => Ok(Told::Watch(state)),
        Tool::Why => Ok(Told::Why(state)),
    }
}

// Puts the page of a recording, and then what became of its messages.
fn put_summary<S: LineSink>(deliveries: &Deliveries, sink: &mut S)
    ensures { S.took sink.old sink.new (tool_lines Tool.Summary deliveries.now.encounter deliveries.now.journal) }
{
    Summary(deliveries.state()).put(sink);
    deliveries.put(sink);
}

// Puts the picture of a recording, without labels.
fn put_picture<S: LineSink>(deliveries: &Deliveries, sink: &mut S)
    ensures { S.took sink.old sink.new (tool_lines Tool.Picture deliveries.now.encounter deliveries.now.journal) }
{
    let labels = Labels::none();
    Picture {
        deliveries,
        labels: &labels,
    }
    .put(sink);
}

impl Text for Told {
    ghost use Rattle.acas_top.specs.Given.{told_lines};

    ghost lines = { told_lines };

    fn put<S: LineSink>(&self, sink: &mut S) {
        match self {
            Told::Messages(messages) => messages.put(sink),
            Told::Picture(deliveries) => put_picture(deliveries, sink),
            Told::Places(state) => Places(state).put(sink),
            Told::Reports(state) => Reports(state).put(sink),
            Told::Response(state) => Response(state).put(sink),
            Told::Summary(deliveries) => put_summary(deliveries, sink),
            Told::Watch(state) => Watch(state).put(sink),
            Told::Why(state) => Reasons(state).put(sink),
        }
    }
}
