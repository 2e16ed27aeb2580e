use tab_core::CoreNo;

// Whoever has the ticks of a line, by the name in it.
#[derive(Clone, Copy, PartialEq, Eq)]
pub(crate) enum Holder<'a> {
    Nobody,
    Slot(&'a [u8]),
    Shared(&'a [u8]),
}

// What a line says.
#[derive(Clone, Copy, PartialEq, Eq)]
pub(crate) enum Statement<'a> {
    // A plan begins.
    Head {
        cores: u32,
        vcpus: u32,
    },
    // A vCPU of the plan.
    Task {
        name: &'a [u8],
        period: u32,
        cost: u32,
        home: CoreNo,
    },
    // The segments of this core follow.
    Core(CoreNo),
    // The ticks up to this one are of the holder.
    Segment {
        end: u32,
        holder: Holder<'a>,
    },
    // The plan ends.
    End,
    // A run follows the plan.
    Cut,
    // A core enters a round.
    Entry {
        core: CoreNo,
        round: u32,
        count: u32,
    },
    // A core ran.
    Stint {
        core: CoreNo,
        from: u32,
        end: u32,
        used: u32,
        seen: u32,
        holder: Holder<'a>,
    },
    // A replay ends.
    Posted {
        count: u32,
    },
    // A report begins, goes on, and ends.
    Report,
    Item,
    Done,
}
