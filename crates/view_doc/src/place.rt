ghost use Rattle.std.specs.Prelude.{◌≡◌, ℕ, ◌&&◌, [], ◌∷◌, IfSome, MatchOption, Some, nat_le, nat_lt};
ghost use Rattle.tab_core.specs.declared.TheConstants.{ROUND};
ghost use Rattle.tab_words.specs.Texts.{Line};
ghost use Rattle.view_doc.specs.Grammar.{goes_on, may_end, place_after_line};
ghost use Rattle.view_doc.specs.Inside.Statements.{told_by};
ghost use Rattle.view_doc.specs.Lines.{segment, stint};
ghost use Rattle.view_doc.specs.Lines.{Holder as Held};
ghost use Rattle.view_doc.specs.Views.{slots_in};
ghost use Rattle.view_doc.specs.declared.place.Place.TheVariants.{Start, Tasks, Row, Planned, Running, Reporting};

use crate::statement::Statement;
use tab_core::{CoreNo, ROUND};

/// Where a text is, by the lines so far.
#[derive(Clone, Copy, PartialEq, Eq)]
pub enum Place {
    /// Before the first line.
    Start,
    /// After a plan's head: of its vCPUs so many are left.
    Tasks { cores: u32, left: u32 },
    /// In the row of a core, whose segments end at `from` so far.
    Row { cores: u32, core: CoreNo, from: u32 },
    /// After a plan.
    Planned,
    /// Among the entries and stints of a run.
    Running,
    /// Among the lines of a report.
    Reporting,
    /// After the last line.
    Closed,
}

// The place after the statement, if it may be at this one.
pub(crate) fn place_behind(place: &Place, statement: &Statement<'_>) -> Option<Place>
    ensures { (words : Line) → result ≡ place_after_line place.now (told_by words statement.now) }
{
    match *place {
        Place::Start => behind_start(statement),
        Place::Tasks { cores, left } => behind_task(cores, left, statement),
        Place::Row { cores, core, from } => behind_segment(cores, core, from, statement),
        Place::Planned => behind_plan(statement),
        Place::Running => behind_stint(statement),
        Place::Reporting => behind_item(statement),
        Place::Closed => None,
    }
}

// Whether a text may end at the place.
pub(crate) fn may_end(place: &Place) -> bool
    ensures { result ≡ may_end place.now }
{
    matches!(place, Place::Planned | Place::Running | Place::Closed)
}

// The row that the place is in: its core, and where its segments end so far.
pub(crate) fn row_at(place: &Place) -> Option<(CoreNo, u32)>
    ensures { (to : ℕ) (held : Held) → MatchOption result (slots_in place.now (segment to held) ≡ [])
        (λ row. slots_in place.now (segment to held) ≡ stint row.0 row.1 to 0 0 held ∷ []) }
{
    match *place {
        Place::Row { core, from, .. } => Some((core, from)),
        _ => None,
    }
}

// The place after a segment that ends at this tick, if the place is in a row and it may be there.
pub(crate) fn row_behind(place: &Place, end: u32) -> Option<Place>
    ensures { IfSome result (λ next. (held : Held) → place_after_line place.now (segment end held) ≡ Some next) }
{
    match *place {
        Place::Row { cores, core, from } => row_up_to(cores, core, from, end),
        _ => None,
    }
}

// In a row whose segments end at `from` so far one more goes up to `end`, if it has ticks of the round.
fn row_up_to(cores: u32, core: CoreNo, from: u32, end: u32) -> Option<Place>
    ensures { result ≡ goes_on (nat_lt from end && nat_le end ROUND) (Row cores core end) }
{
    if from < end && end <= ROUND {
        Some(Place::Row {
            cores,
            core,
            from: end,
        })
    } else {
        None
    }
}

fn behind_start(statement: &Statement<'_>) -> Option<Place>
    ensures { (words : Line) → result ≡ place_after_line Start (told_by words statement.now) }
{
    match *statement {
        Statement::Head { cores, vcpus } => Some(Place::Tasks { cores, left: vcpus }),
        Statement::Entry { .. } => Some(Place::Running),
        Statement::Stint { from, end, .. } => run_with(from, end),
        Statement::Posted { .. } => Some(Place::Closed),
        _ => None,
    }
}

// A run goes on after a stint of these ticks, if there is one.
fn run_with(from: u32, end: u32) -> Option<Place>
    ensures { result ≡ goes_on (nat_lt from end) Running }
{
    if from < end {
        Some(Place::Running)
    } else {
        None
    }
}

fn behind_task(cores: u32, left: u32, statement: &Statement<'_>) -> Option<Place>
    ensures { (words : Line) → result ≡ place_after_line (Tasks cores left) (told_by words statement.now) }
{
    match *statement {
        Statement::Task { home, .. } if left > 0 && home.0 < cores => Some(Place::Tasks {
            cores,
            left: left - 1,
        }),
        Statement::Core(core) if left == 0 && core.0 == 0 => Some(Place::Row {
            cores,
            core,
            from: 0,
        }),
        _ => None,
    }
}

fn behind_segment(cores: u32, core: CoreNo, from: u32, statement: &Statement<'_>) -> Option<Place>
    ensures { (words : Line) → result ≡ place_after_line (Row cores core from) (told_by words statement.now) }
{
    match *statement {
        Statement::Segment { end, .. } => row_up_to(cores, core, from, end),
        Statement::Core(next) if from == ROUND && next.0 == core.0 + 1 && next.0 < cores => {
            Some(Place::Row {
                cores,
                core: next,
                from: 0,
            })
        }
        Statement::End if from == ROUND && core.0 + 1 == cores => Some(Place::Planned),
        _ => None,
    }
}

fn behind_plan(statement: &Statement<'_>) -> Option<Place>
    ensures { (words : Line) → result ≡ place_after_line Planned (told_by words statement.now) }
{
    match *statement {
        Statement::Cut => Some(Place::Running),
        _ => None,
    }
}

fn behind_stint(statement: &Statement<'_>) -> Option<Place>
    ensures { (words : Line) → result ≡ place_after_line Running (told_by words statement.now) }
{
    match *statement {
        Statement::Entry { .. } => Some(Place::Running),
        Statement::Stint { from, end, .. } => run_with(from, end),
        Statement::Posted { .. } => Some(Place::Closed),
        Statement::Report => Some(Place::Reporting),
        _ => None,
    }
}

fn behind_item(statement: &Statement<'_>) -> Option<Place>
    ensures { (words : Line) → result ≡ place_after_line Reporting (told_by words statement.now) }
{
    match *statement {
        Statement::Item => Some(Place::Reporting),
        Statement::Done => Some(Place::Closed),
        _ => None,
    }
}
