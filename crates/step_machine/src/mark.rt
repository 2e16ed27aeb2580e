use tab_core::CoreNo;

// Which entry or stint of its core's log a step made.
#[derive(Clone, Copy)]
pub(crate) enum Mark {
    Entered { core: CoreNo, place: u32 },
    Ran { core: CoreNo, place: u32 },
}
