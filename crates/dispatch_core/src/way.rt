use slice_table::SliceTable;
use table_form::Outline;

/// By what a core runs in a round: the course without its plans, how many events the plan of the round includes, and the core's
/// slice table of that plan.
#[derive(Clone, Copy)]
pub struct Way<'a> {
    pub outline: &'a Outline,
    pub used: u32,
    pub table: &'a SliceTable,
}
