ghost use Rattle.std.specs.Prelude.{◌≤◌, length};
ghost use Rattle.tab_core.specs.declared.TheConstants.{MAX_VCPUS};

use tab_core::Name;
use view_doc::Task;
use view_lanes::Frame;
use view_table::Figures;

/// Where a lane is drawn: in which frame, where it begins from the top, and how high it is, both in units of
/// the picture.
#[derive(Clone, Copy)]
pub struct Band {
    pub frame: Frame,
    pub y: u32,
    pub high: u32,
}

/// What is known of the vCPUs, by number: their names, their figures, and the latencies that they were
/// promised, in nanoseconds, if any.
#[derive(Clone, Copy)]
pub struct Vcpus<'a> {
    pub names: &'a [Name],
    pub figures: &'a Figures,
    pub promises: &'a [Option<u64>],
}

/// What the keys of bars are shown as, by the numbers that the bars have: at most 256 names, the tasks of those
/// that have one, and a tone for each name.
#[derive(Clone, Copy)]
pub struct Palette<'a> {
    pub names: &'a [Name],
    pub tasks: &'a [Task],
    pub colours: &'a [u32],
    pub ghost few: { length names.now ≤ MAX_VCPUS },
    pub ghost coloured: { length names.now ≤ length colours.now },
}
