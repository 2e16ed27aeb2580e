//! The words of the program, in tables: a row for each word of a command, and one for each command.
//!
//! Two loops give them to clap. A call of clap's builders in the program's text costs the prover more than a row.

use clap::builder::ValueParser;
use clap::{Arg, ArgAction, Command};
use std::alloc::{AllocError, Global};

// What `--version` says. A program that knew its revision would be another with each of them, so the installation has it.
const VERSION: &str =
    "0.1.0\nits revision and checksum are in share/doc/tableau/BUILD of the installation";

// The greatest number of a CPU.
const MAX_CPU: i64 = 8191;

// The most hosts that `place` counts.
const MAX_HOSTS: i64 = 65_535;

// A command and its words, in the order of its help.
#[derive(Clone, Copy)]
struct Entry {
    name: &'static str,
    about: &'static str,
    words: &'static [Word],
}

// A word of a command.
#[derive(Clone, Copy)]
struct Word {
    name: &'static str,
    kind: Kind,
    is_required: bool,
    // Its value where it isn't given, if it has one.
    default: &'static [&'static str],
    help: &'static str,
}

// How a word is given, and which values it takes.
#[derive(Clone, Copy)]
enum Kind {
    // As a value, by its place.
    Value(ValueParser<'static>),
    // As one value or more, by their place.
    List,
    // As `--name` and a value, which help calls so.
    Option(&'static str, ValueParser<'static>),
    // As `--name` alone.
    Flag,
}

// Any text.
const TEXT: ValueParser<'static> = ValueParser::String;

// Any number.
const NUMBER: ValueParser<'static> = ValueParser::Signed(0, u32::MAX as i64);

// A text that may be left out.
const VALUE: Word = Word {
    name: "",
    kind: Kind::Value(TEXT),
    is_required: false,
    default: &[],
    help: "",
};

// The text to read.
const FILE: Word = Word {
    name: "FILE",
    help: "The text to read; without it, standard input",
    ..VALUE
};

// How long a tick is.
const TICK: Word = Word {
    name: "tick",
    kind: Kind::Option("NS", TEXT),
    help: "Nanoseconds of a tick, 500 to 2002, or a time as 1us; without it, 1001",
    ..VALUE
};

// Whether JSON is written.
const JSON: Word = Word {
    name: "json",
    kind: Kind::Flag,
    help: "One JSON object, for programs",
    ..VALUE
};

// Whether comma-separated values are written.
const CSV: Word = Word {
    name: "csv",
    kind: Kind::Flag,
    help: "A line of comma-separated values for each vCPU, for programs",
    ..VALUE
};

// Whether rows are those of vCPUs or of VMs.
const ROWS: Word = Word {
    name: "by",
    kind: Kind::Option("ROWS", ValueParser::Names(&["vcpu", "vm"])),
    default: &["vcpu"],
    help: "Rows or lines for vCPUs, or for VMs: a VM is a name's part before the last dot",
    ..VALUE
};

// How many cores the host has.
const CORES: Word = Word {
    name: "cores",
    // (more than a host has are refused later, with what to do)
    kind: Kind::Option("N", ValueParser::Signed(1, u32::MAX as i64)),
    is_required: true,
    help: "The host's cores, 1 to 32",
    ..VALUE
};

// The sizes of its VMs.
const SIZES: Word = Word {
    name: "SIZE",
    kind: Kind::List,
    help: "VMs of a size, as \"small 18 x 2 20% 20ms\", or one VM, as \"vm mail 4 30% 50ms\"; without it, lines of standard input",
    ..VALUE
};

// Whether there may be no size.
const EMPTY: Word = Word {
    name: "empty",
    kind: Kind::Flag,
    help: "Takes no size for a host without VMs; without it, no size is refused",
    ..VALUE
};

// Whether a host has no room if its plan would split a vCPU.
const NO_SPLIT: Word = Word {
    name: "no-split",
    kind: Kind::Flag,
    help: "A host has no room if its plan would split a vCPU, which the schedulers of export can't have",
    ..VALUE
};

// What `table` takes.
const TABLE: Entry = Entry {
    name: "table",
    about: "Writes the shares, waits and loads of a plan, beside what its host asks for; with --json or --csv also the report of a run",
    words: &[ROWS, JSON, CSV, FILE, TICK],
};

// What `chart` takes: what is read, which lanes are drawn, and which part of the time.
const CHART: Entry = Entry {
    name: "chart",
    about: "Draws a plan, replay or trace as a picture, in SVG or as a text",
    words: &[
        FILE,
        Word {
            name: "text",
            kind: Kind::Flag,
            help: "A text for terminals, by core, in place of a picture",
            ..VALUE
        },
        Word {
            name: "by",
            kind: Kind::Option("LANES", ValueParser::Names(&["core", "vcpu"])),
            help: "A lane for each core, or for each vCPU with its longest wait; without it, core",
            ..VALUE
        },
        Word {
            name: "cores",
            kind: Kind::Option("FIRST-LAST", TEXT),
            help: "The cores to draw; without it, all",
            ..VALUE
        },
        Word {
            name: "vcpus",
            kind: Kind::Option("FIRST-LAST", TEXT),
            help: "With --by vcpu, the vCPUs to draw, by number from 0; without it, all",
            ..VALUE
        },
        Word {
            name: "from",
            kind: Kind::Option("TICK", NUMBER),
            help: "The first tick to draw; without it, 0",
            ..VALUE
        },
        Word {
            name: "to",
            kind: Kind::Option("TICK", NUMBER),
            help: "The tick that ends what is drawn; without it, the end of the last round or of the trace",
            ..VALUE
        },
        Word {
            name: "width",
            kind: Kind::Option("COUNT", ValueParser::Signed(1, 8000)),
            help: "Pixels of a picture's width, 200 to 8000, and 1500 without it, or columns of a text, 76 without it",
            ..VALUE
        },
        TICK,
    ],
};

// What `diff` takes.
const DIFF: Entry = Entry {
    name: "diff",
    about: "Writes what differs between two plans; ends with 1 where they differ, 2 for a fault",
    words: &[
        ROWS,
        JSON,
        CSV,
        Word {
            name: "OLD",
            is_required: true,
            help: "A plan text",
            ..VALUE
        },
        Word {
            name: "NEW",
            is_required: true,
            help: "Another plan text",
            ..VALUE
        },
        TICK,
    ],
};

// What `report` takes.
const REPORT: Entry = Entry {
    name: "report",
    about: "Writes one page of HTML with the tables and pictures of a plan, or the pictures of a run",
    words: &[
        Word {
            name: "FILE",
            help: "A host and its plan, or a host, a script and the trace of its run, with a line %% between each two; without it, standard input",
            ..VALUE
        },
        Word {
            name: "old",
            kind: Kind::Option("FILE", TEXT),
            help: "An older plan text, with which the plan is compared",
            ..VALUE
        },
    ],
};

// What `export` takes.
const EXPORT: Entry = Entry {
    name: "export",
    about: "Writes a plan, replay or trace for other programs, or a plan for the scheduler of a host",
    words: &[
        Word {
            name: "FORMAT",
            kind: Kind::Value(ValueParser::Names(&[
                "csv", "chrome", "json", "rtds", "deadline", "cgroup", "libvirt", "scx", "judge",
            ])),
            is_required: true,
            help: "The text to write: comma-separated values, trace events, JSON; lines for Xen's RTDS, for Linux's deadline tasks or cgroups, or for libvirt; the tables for Linux's sched_ext; a run's trace for judge",
            ..VALUE
        },
        FILE,
        TICK,
        Word {
            name: "first-cpu",
            kind: Kind::Option("N", ValueParser::Signed(0, MAX_CPU)),
            help: "In lines for a scheduler, the CPU that core 0 is; without it, 0",
            ..VALUE
        },
        Word {
            name: "cpus",
            kind: Kind::Option("LIST", TEXT),
            help: "In lines for a scheduler, the CPUs that the cores are, as 1-23 or 2,4,6-46:2, in place of --first-cpu",
            ..VALUE
        },
        Word {
            name: "full",
            kind: Kind::Flag,
            help: "With deadline, all of a core, and not 95 percent: the lines tell the kernel so",
            ..VALUE
        },
        Word {
            name: "map",
            kind: Kind::Option("MAP", TEXT),
            help: "In lines for a scheduler, a file of lines NAME GUEST N for vCPUs whose names aren't GUEST.N",
            ..VALUE
        },
    ],
};

// What `judge` takes.
const JUDGE: Entry = Entry {
    name: "judge",
    about: "Writes whether a host kept its promises, by a trace of what ran; ends with 1 where it didn't, 2 for a fault, 3 where not all was judged",
    words: &[
        Word {
            name: "HOST",
            is_required: true,
            help: "A host document: what its vCPUs have reserved",
            ..VALUE
        },
        Word {
            name: "TRACE",
            help: "Lines TIME_NS,VCPU,STATE or TIME_NS,VCPU,STATE,CPU; without it, or as -, standard input",
            ..VALUE
        },
        Word {
            name: "window",
            kind: Kind::Option("TIME", TEXT),
            default: &["1000"],
            help: "The running and waiting in each window in which shares are counted: milliseconds, or a time as 1.5s; 1ms to 3600s",
            ..VALUE
        },
        Word {
            name: "plan",
            kind: Kind::Option("FILE", TEXT),
            help: "Judges shares by this plan of the host, which owes the cost of each whole period that a window holds",
            ..VALUE
        },
        JSON,
    ],
};

// What `sections` takes.
const SECTIONS: Entry = Entry {
    name: "sections",
    about: "Writes files as the sections of one text, with a line %% between each two",
    words: &[Word {
        name: "FILE",
        kind: Kind::List,
        is_required: true,
        help: "The files of the sections, in their order",
        ..VALUE
    }],
};

// What `host` takes.
const HOST: Entry = Entry {
    name: "host",
    about: "Writes the host document of sizes of VMs",
    words: &[CORES, TICK, EMPTY, SIZES],
};

// What `fit` takes.
const FIT: Entry = Entry {
    name: "fit",
    about: "Writes how VMs of sizes fit a host, and how many more of each would; ends with 3 where they don't fit",
    words: &[CORES, TICK, NO_SPLIT, EMPTY, SIZES],
};

// What `place` takes: which hosts there are, what is kept of an earlier placing, and what is written.
const PLACE: Entry = Entry {
    name: "place",
    about: "Writes which VM of sizes goes on which host; ends with 3 where VMs are left over",
    words: &[
        Word {
            name: "hosts",
            kind: Kind::Option("N", ValueParser::Signed(1, MAX_HOSTS)),
            help: "The hosts, 1 to 65535",
            ..VALUE
        },
        Word {
            is_required: false,
            help: "The cores of each host, 1 to 32",
            ..CORES
        },
        Word {
            name: "kinds",
            kind: Kind::Option("FILE", TEXT),
            help: "Hosts of several kinds, in place of --hosts and --cores: lines KIND CORES COUNT",
            ..VALUE
        },
        Word {
            name: "stay",
            kind: Kind::Option("FILE", TEXT),
            help: "The lines of an earlier placing: VMs stay on their hosts where they can",
            ..VALUE
        },
        Word {
            name: "host",
            kind: Kind::Option("K", NUMBER),
            help: "The document of host K, from 0, in place of lines",
            ..VALUE
        },
        Word {
            name: "documents",
            kind: Kind::Flag,
            help: "The documents of all hosts, with a line %% between each two",
            ..VALUE
        },
        Word {
            name: "summary",
            kind: Kind::Flag,
            help: "How full each host is, and how many of its vCPUs are split, in place of lines",
            ..VALUE
        },
        Word {
            name: "spread",
            kind: Kind::Flag,
            help: "A VM goes to the host of least load, in place of the fullest that it fits",
            ..VALUE
        },
        NO_SPLIT,
        TICK,
        EMPTY,
        SIZES,
    ],
};

// The commands, in the order of the program's help.
const COMMANDS: [Entry; 10] = [
    TABLE, CHART, DIFF, REPORT, EXPORT, JUDGE, SECTIONS, HOST, FIT, PLACE,
];

/// The words of the program.
pub(crate) fn command<'a>(alloc: Global) -> Result<Command<'a>, AllocError> {
    let mut commands = Vec::new(alloc);
    for entry in &COMMANDS {
        commands.push(command_of(alloc, entry)?)?;
    }
    Command::new(alloc, "tableau-tools")
        .bin_name("tableau-tools")?
        .version(VERSION)
        .about("Shows what tableau wrote, and writes what it reads")
        .subcommand_required(true)
        .arg_required_else_help(true)
        .subcommands(commands)
}

// A command with its words.
fn command_of<'a>(alloc: Global, entry: &Entry) -> Result<Command<'a>, AllocError> {
    let mut words = Vec::new(alloc);
    for word in entry.words {
        words.push(arg_of(alloc, word))?;
    }
    Command::new(alloc, entry.name)
        .about(entry.about)
        .args(words)
}

// A word as clap takes it.
fn arg_of<'a>(alloc: Global, word: &Word) -> Arg<'a> {
    let arg = Arg::new(alloc, word.name)
        .required(word.is_required)
        .default_values(word.default)
        .help(word.help);
    match word.kind {
        Kind::Value(values) => arg.value_parser(values),
        Kind::List => arg.action(ArgAction::Append).num_args(1..),
        Kind::Option(value, values) => {
            arg.long(word.name)
                .value_name(value)
                .value_parser(values)
                .allow_negative_numbers(true)
        }
        Kind::Flag => arg.long(word.name).action(ArgAction::SetTrue),
    }
}
