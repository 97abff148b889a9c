// The cells of the next commit, by what is kept.
ghost use Rattle.std.specs.Prelude.{◌≡◌, ℕ, ◌+◌, ◌<◌, ◌≤◌, length, slice_index_or};
ghost use Rattle.acas_base.specs.Messages.{has_many};
ghost use Rattle.acas_base.specs.declared.TheConstants.{CRAFTS};
ghost use Rattle.acas_base.specs.declared.advisory.Cell.TheVariants as cell_kinds;
ghost use Rattle.acas_base.specs.declared.advisory.Intent.{Intent};
ghost use Rattle.acas_base.specs.declared.view.View.{View};
ghost use Rattle.air_journal.specs.Airs.{air_of};
ghost use Rattle.air_journal.specs.Found.{AreNext, kept_in_force, next_in};
ghost use Rattle.air_journal.specs.Kept.{link_at, made_at};
ghost use Rattle.air_journal.specs.Pictures.{IsEnough};
ghost use Rattle.craft_view.specs.Views.{view_of};

use crate::crafts::{count_of, rank};
use crate::kept::Complement;
use crate::tables::Tables;
use acas_base::{CRAFTS, Cell, Cells, Encounter, Picture, View, Vrc};
use coord_core::next_cell;

// The complement in force after `made` commits.
fn kept_in_force(complement: Option<Complement>, made: u16) -> Vrc
    ensures { result ≡ kept_in_force complement made }
{
    match complement {
        Some(taken) => taken.vrc.in_force(taken.commits, made),
        None => Vrc::Nil,
    }
}

// The next cell for one other aircraft.
fn next_for(encounter: &Encounter, tables: &Tables, own: u8, target: u8, view: &View) -> Cell
    requires own { own < length encounter.now.crafts }
    requires target { target < length encounter.now.crafts }
    requires few { length encounter.now.crafts ≤ CRAFTS }
    requires made { (made_at tables.now own).commits < 600 }
    requires view { IsEnough (link_at tables.now own target).cell (view_of encounter.now own target ((made_at tables.now own).commits + 1)) view.now }
    requires age { (intent : Intent) → (link_at tables.now own target).cell ≡ cell_kinds.Ra intent → intent.age < 600 }
    ensures { result ≡ next_in (air_of encounter.now) tables.now own target }
{
    if own == target {
        return Cell::Clear;
    }
    let link = tables.link(own, target);
    next_cell(
        &link.cell,
        view,
        kept_in_force(link.complement, tables.made(own).commits),
        rank(encounter, own, target),
    )
}

/// The cells of an aircraft's next commit. Those past the last aircraft are Clear.
pub(crate) fn next_cells(
    encounter: &Encounter,
    tables: &Tables,
    own: u8,
    picture: &Picture,
) -> Cells
    requires own { own < length encounter.now.crafts }
    requires made { (made_at tables.now own).commits < 600 }
    requires picture { (target : ℕ) (d : View) → target < CRAFTS → IsEnough (link_at tables.now own target).cell (view_of encounter.now own target ((made_at tables.now own).commits + 1)) (slice_index_or picture.now.views target d) }
    requires age { (target : ℕ) (intent : Intent) → target < CRAFTS → (link_at tables.now own target).cell ≡ cell_kinds.Ra intent → intent.age < 600 }
    ensures { AreNext (air_of encounter.now) tables.now own result }
{
    let mut list = [Cell::Clear; CRAFTS];
    for target in 0..count_of(encounter) {
        list[usize::from(target)] = next_for(
            encounter,
            tables,
            own,
            target,
            &picture.views[usize::from(target)],
        );
    }
    Cells { list }
}

/// Whether there are two or more resolution advisories.
pub(crate) fn has_many(cells: &Cells) -> bool
    ensures { result ≡ has_many cells.now }
{
    cells.list.iter().filter(|cell| cell.has_advisory()).count() >= 2
}
