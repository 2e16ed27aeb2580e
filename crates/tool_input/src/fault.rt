use crate::unkept::Refusal;
use host_doc::HostFault;
use sizes_doc::{Part, SizesFault};
use std::alloc::{AllocError, AllocFailed};
use std::{fmt, io};
use tab_io::WriteFault;
use thiserror::Error;

/// Why a command doesn't end well. A place is the name of a file with a colon and a space, or nothing.
#[derive(Drop, Error)]
pub enum Fault {
    #[error("{place}line {line} isn't of a plan, a replay or a trace, or isn't in its place: '{text}'")]
    BadLine {
        place: String,
        line: u32,
        text: String,
    },
    #[error("{place}line {line} of the plan isn't of a plan text, or isn't in its place: '{text}'")]
    BadPlanLine {
        place: String,
        line: u32,
        text: String,
    },
    #[error("{place}line {line} of the plan isn't of a plan of this host, or isn't in its place: '{text}'; plan the host again, or give the host that was planned")]
    BadHostPlanLine {
        place: String,
        line: u32,
        text: String,
    },
    #[error("{place}the host has no plan, since no period meets the latency of {name}: give it a longer one, or a larger share")]
    Unplanned {
        place: String,
        name: String,
    },
    #[error("{place}the tables are no plan of this host, since {why}: tableau check says more, and tableau plan makes one that is")]
    Faulty {
        place: String,
        why: String,
    },
    #[error("{place}line {line} isn't of the report of a run, or isn't in its place: '{text}'")]
    BadReportLine {
        place: String,
        line: u32,
        text: String,
    },
    #[error("{place}the text ends before line {line}, and isn't whole")]
    EndsEarly {
        place: String,
        line: u32,
    },
    #[error("{place}the plan was refused: {refusal}")]
    Refused {
        place: String,
        refusal: String,
    },
    #[error("{place}{what}")]
    OtherText {
        place: String,
        what: &'static str,
    },
    #[error("{place}the {fault}: give it to tableau plan, which says where and why")]
    BadHost {
        place: String,
        fault: HostFault,
    },
    #[error("{place}line {line} of the trace isn't TIME_NS,VCPU,STATE or TIME_NS,VCPU,STATE,CPU, since {why}: '{text}'")]
    BadTraceLine {
        place: String,
        line: u64,
        why: &'static str,
        text: String,
    },
    #[error("{place}line {line} of the trace {why}: '{text}'")]
    UndrawnLine {
        place: String,
        line: u64,
        why: &'static str,
        text: String,
    },
    #[error("{place}line {line} ends in a carriage return, and lines have to end in line feeds alone: tableau-tools sections writes them so")]
    Return {
        place: String,
        line: u64,
    },
    #[error("{place}the trace lasts 11.9 hours or more; give a part of it")]
    LastingTrace {
        place: String,
    },
    #[error("{place}the trace has too many lines")]
    LongTrace {
        place: String,
    },
    #[error("{0}")]
    BadSizes(SizesFault),
    #[error("size {line}, '{text}': {part}")]
    BadSize {
        line: u32,
        text: String,
        part: Part,
    },
    #[error("size {line}: '{name}' makes no names of vCPUs, which are 1 to 32 characters of a-z A-Z 0-9 _ - . with the number of the VM and the vCPU")]
    BadName {
        line: u32,
        name: String,
    },
    #[error("no size is given: name one, as \"web 2 x 1 25% 20ms\", or give --empty for a host without VMs")]
    NoSizes,
    #[error("two sizes make a vCPU of the name {name}: give each size a name of its own")]
    SameName {
        name: String,
    },
    #[error("{place}line {line} isn't {wanted}: '{text}'")]
    BadFleetLine {
        place: String,
        line: u32,
        wanted: &'static str,
        text: String,
    },
    #[error("{place}no line is KIND CORES COUNT")]
    NoHosts {
        place: String,
    },
    #[error("vm {name} is there twice: each VM needs a name of its own")]
    SameVm {
        name: String,
    },
    #[error("vm {name} fits no host, even alone: give it fewer vCPUs or a smaller share, or hosts with more cores")]
    Misfit {
        name: String,
    },
    #[error("vm {name} fits no host: no period meets its latency; give it a longer one, or a larger share")]
    NoPeriod {
        name: String,
    },
    #[error("there is no such host: the {count} hosts are counted from 0")]
    NoSuchHost {
        count: usize,
    },
    #[error("--hosts N with --cores N, or --kinds FILE, says which hosts there are")]
    NoFleet,
    #[error("{place}there are more than 65535 hosts")]
    TooManyHosts {
        place: String,
    },
    #[error("there are more than 16776960 VMs, which 65535 hosts of 256 vCPUs can't have")]
    TooManyVms,
    #[error("--host, --documents and --summary are three texts of a placing: name one")]
    OtherTexts,
    #[error("standard input is read once: --kinds, --stay and the sizes can't share it")]
    InputTwice,
    #[error("standard input is read once, so one file alone can be it: name the other")]
    TwoInputs,
    #[error("{place}the text is no plan")]
    NoPlan {
        place: String,
    },
    #[error("{place}{count} sections, and not a plan, or a host and its plan, with a line %% between them")]
    BadSections {
        place: String,
        count: u32,
    },
    #[error("{place}{count} sections, and not a report, a host and a report, or a host, a script and a report, with a line %% between each two")]
    NoRun {
        place: String,
        count: u32,
    },
    #[error("{place}{count} sections, and not a host and its plan, with a line %% between them")]
    NoHost {
        place: String,
        count: u32,
    },
    #[error("{place}{count} sections, and not a host and its plan, or a host, a script and the trace of its run, with a line %% between each two")]
    NoReport {
        place: String,
        count: u32,
    },
    #[error("--old compares a plan with an older one, and a run is given")]
    OldOfRun,
    #[error("{place}{fault}")]
    Unkept {
        place: String,
        fault: Refusal,
    },
    #[error("{place}the plan has no vcpu {name}, which the host admits; is it this host's?")]
    NotInPlan {
        place: String,
        name: String,
    },
    #[error("{place}tableau check refuses the plan: {line}")]
    BadTables {
        place: String,
        line: String,
    },
    #[error("{place}line {line} of the map isn't NAME GUEST NUMBER, as: mail web 0, or names a vCPU again: '{text}'")]
    BadMapLine {
        place: String,
        line: u32,
        text: String,
    },
    #[error("by the map two vCPUs are {name}; give each its own number of its guest")]
    SameGuest {
        name: String,
    },
    #[error("--cpus is a list of CPUs from 0 to 8191, as 1-23 or 2,4,6-46:2, and not '{text}'")]
    BadCpus {
        text: String,
    },
    #[error("--cpus has CPU {cpu} twice: each core is a CPU of its own")]
    CpuTwice {
        cpu: u32,
    },
    #[error("--cpus has {cpus} CPUs, and the plan has {cores} cores: name a CPU for each core")]
    FewCpus {
        cpus: usize,
        cores: u32,
    },
    #[error("--cores is {cores}, and a host has 32 cores or fewer: a machine with more is a host for each of its memory nodes, as docs/FLEET.md says")]
    ManyCores {
        cores: u32,
    },
    #[error("--cpus and --first-cpu both say which CPUs the cores are: name one")]
    TwoCpus,
    #[error("{place}line {line} is %%, which parts sections")]
    HasSeparator {
        place: String,
        line: u32,
    },
    #[error("{place}the input is longer than 67108864 bytes")]
    TooLong {
        place: String,
    },
    #[error("{place}{why}")]
    Unread {
        place: String,
        why: io::Error,
    },
    #[error("{place}the input can't be read")]
    ReadFault {
        place: String,
    },
    #[error("the hosts have ticks of {old} and {new} ns, so their times can't be compared; give the plans without them")]
    OtherTick {
        old: u32,
        new: u32,
    },
    #[error("the host that comes first has ticks of {tick_ns} ns, which are taken: leave --tick out")]
    TickOfHost {
        tick_ns: u32,
    },
    #[error("a host's trace has ticks of its own: leave --tick out")]
    TickOfTrace,
    #[error("{option} goes with {formats} alone: leave it out")]
    OtherFormat {
        option: &'static str,
        formats: &'static str,
    },
    #[error("--window {text} isn't 1ms to 3600s in whole nanoseconds: write milliseconds, as 1000, or a time, as 1.5ms or 2s")]
    BadWindow {
        text: String,
    },
    #[error("--tick {text} isn't 500ns to 2002ns in whole nanoseconds: write nanoseconds, as 1000, or a time, as 1us")]
    BadTick {
        text: String,
    },
    #[error("a word of the command isn't text")]
    NoText,
    #[error("the cores or vCPUs aren't of the form FIRST-LAST")]
    BadLanes,
    #[error("--cores chooses lanes of cores, and --vcpus those of --by vcpu")]
    OtherLanes,
    #[error("--json, --csv and --by vm are three forms of what is written: name one")]
    OtherForms,
    #[error("a text has lines of cores: --text doesn't go with --by vcpu")]
    TextByVcpu,
    #[error("a picture is 200 to 8000 pixels wide")]
    TooNarrow,
    #[error("there is no {what} {first}: the text has {count}, counted from 0")]
    NoLane {
        what: &'static str,
        first: u32,
        count: u64,
    },
    #[error("no tick or no lane is to be drawn")]
    Nothing,
    #[error("there are more cores or vCPUs than 32 or 256")]
    TooMany,
    #[error("out of memory")]
    NoMemory,
    #[error("the output failed")]
    WriteFault,
}

// (Nothing shows it but as its line, and a derived `Debug` of so many kinds takes the prover long.)
impl fmt::Debug for Fault {
    fn fmt<W: fmt::Write>(&self, f: &mut fmt::Formatter<W>) -> fmt::Result {
        fmt::Display::fmt(self, f)
    }
}

impl Fault {
    /// The status of a command that ends so: those of `tableau`.
    pub fn status(&self) -> u8 {
        match self {
            Fault::NoText
            | Fault::BadLanes
            | Fault::OtherLanes
            | Fault::OtherForms
            | Fault::OtherFormat { .. }
            | Fault::TextByVcpu
            | Fault::TooNarrow
            | Fault::BadWindow { .. }
            | Fault::BadTick { .. }
            | Fault::OldOfRun
            | Fault::NoSuchHost { .. }
            | Fault::NoFleet
            | Fault::OtherTexts
            | Fault::InputTwice
            | Fault::BadCpus { .. }
            | Fault::CpuTwice { .. }
            | Fault::FewCpus { .. }
            | Fault::TwoCpus
            | Fault::ManyCores { .. }
            | Fault::TwoInputs => 1,
            Fault::Unread { .. } | Fault::ReadFault { .. } => 4,
            Fault::WriteFault => 5,
            Fault::NoMemory => 6,
            _ => 2,
        }
    }
}

impl From<AllocError> for Fault {
    fn from(_: AllocError) -> Fault {
        Fault::NoMemory
    }
}

impl<T: Drop> From<AllocFailed<T>> for Fault {
    fn from(_: AllocFailed<T>) -> Fault {
        Fault::NoMemory
    }
}

impl From<WriteFault> for Fault {
    fn from(_: WriteFault) -> Fault {
        Fault::WriteFault
    }
}

impl From<SizesFault> for Fault {
    fn from(fault: SizesFault) -> Fault {
        match fault {
            SizesFault::NoMemory => Fault::NoMemory,
            fault => Fault::BadSizes(fault),
        }
    }
}
