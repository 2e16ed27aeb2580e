//! Laws on jobs that fit, which the planner's crates cite.
ghost use Rattle.std.specs.Prelude.{◌+◌, ◌-◌, ◌≤◌, ℕ, List};
ghost use Rattle.tab_core.specs.declared.TheConstants.{ROUND};
ghost use Rattle.tab_core.specs.declared.piece.Piece.{Piece};
ghost use Rattle.tab_core.specs.Period.{IsPeriod};
ghost use Rattle.table_form.specs.Planning.Demand.{Fits};
ghost use Rattle.table_form.specs.Planning.Jobs.{Job, jobs_of};
ghost use Rattle.edf_table.specs.Beside.{FitsBeside, tight};
ghost use Rattle.edf_table.specs.Load.{AreUnsplit, load_of_pieces};

/// Where a tight piece fits, one that is a tick shorter fits. So bisection finds the longest.
pub fn shorter_piece_fits()
    ensures { (jobs : List Job) (vcpu cost from period : ℕ) → IsPeriod period → 2 ≤ cost
        → from + cost ≤ period
        → FitsBeside jobs (tight vcpu cost from period)
        → FitsBeside jobs (tight vcpu (cost - 1) from period) }
{}

/// Pieces whose windows are whole periods fit where they take no more than a round.
pub fn unsplit_pieces_fit()
    ensures { (pieces : List Piece) → AreUnsplit pieces → load_of_pieces pieces ≤ ROUND → Fits (jobs_of pieces) }
{}
