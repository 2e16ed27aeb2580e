use crate::core_log::CoreLog;

/// What is kept of a run: how many events are posted, the rounds' counts, and each core's log.
#[derive(Drop)]
pub(crate) struct MachineState {
    pub(crate) posted: u32,
    pub(crate) decided: Vec<u32>,
    pub(crate) logs: Vec<CoreLog>,
}
