ghost use Rattle.std.specs.Prelude.{◌≡◌, ℕ, ◌<◌, ◌≢◌, true, List, slice_index};
ghost use Rattle.tab_core.specs.declared.TheConstants.{MAX_CORES};
ghost use Rattle.view_doc.specs.declared.view.Stretch.{Stretch};
ghost use Rattle.view_doc.specs.declared.view.Task.{Task};
ghost use Rattle.view_lanes.specs.Colours.{belongs_to_core, colours_of, met_below};

/// Two vCPUs that are on one core have different colours, where the one of the higher number meets fewer than
/// 12 of the lower ones.
pub fn colours_of_a_lane_differ()
    ensures { (stretches : List Stretch) (tasks : List Task) (vcpus u v core : ℕ) → u < v → v < vcpus
        → core < MAX_CORES → belongs_to_core stretches tasks core u ≡ true → belongs_to_core stretches tasks core v ≡ true
        → met_below (belongs_to_core stretches tasks) v v < 12
        → slice_index (colours_of stretches tasks vcpus) u ≢ slice_index (colours_of stretches tasks vcpus) v }
{}
