//! Each command as its words say it: the words that clap met become the values that the crates of the commands take.

use clap::ArgMatches;
use sizes_doc::read_time_or;
use std::alloc::Global;
use tab_core::{MAX_TICK_NS, MIN_TICK_NS};
use tool_hosts::{JudgeWords, LineForm, LineWords, PlaceWords, SizeWords, export_lines};
use tool_input::{Fault, shown};
use tool_kernel::export_tables;
use tool_traces::{RunWords, export_run};
use tool_views::{
    ChartWords, DiffWords, ExportWords, Form, Format, TableWords, export_view, form_of,
};

/// Refuses a tick that no host has.
pub(crate) fn has_tick(alloc: Global, matches: &ArgMatches<'_>) -> Result<(), Fault> {
    match matches.get_str("tick") {
        Some(word) if tick_ns(matches).is_none() => Err(Fault::BadTick {
            text: shown(alloc, word.as_bytes())?,
        }),
        _ => Ok(()),
    }
}

// Nanoseconds of the tick that the words name, if they name one that hosts have.
fn tick_ns(matches: &ArgMatches<'_>) -> Option<u32> {
    let ns = read_time_or(matches.get_str("tick")?.as_bytes(), 1)?;
    if ns >= u64::from(MIN_TICK_NS) && ns <= u64::from(MAX_TICK_NS) {
        Some(ns as u32)
    } else {
        None
    }
}

/// The words of `chart`.
pub(crate) fn chart_words<'w>(matches: &'w ArgMatches<'_>) -> ChartWords<'w> {
    ChartWords {
        file: matches.get_str("FILE"),
        is_text: matches.get_flag("text"),
        by_vcpu: matches.get_str("by") == Some("vcpu"),
        cores: matches.get_str("cores"),
        vcpus: matches.get_str("vcpus"),
        from: matches.get_one::<u32>("from"),
        to: matches.get_one::<u32>("to"),
        width: matches.get_one::<u32>("width"),
        tick_ns: tick_ns(matches),
    }
}

/// The form that the words of `table` and of `diff` ask for.
pub(crate) fn form_words(matches: &ArgMatches<'_>) -> Result<Form, Fault> {
    form_of(
        matches.get_str("by") == Some("vm"),
        matches.get_flag("json"),
        matches.get_flag("csv"),
    )
}

/// The words of `table`.
pub(crate) fn table_words<'w>(matches: &'w ArgMatches<'_>, form: Form) -> TableWords<'w> {
    TableWords {
        form,
        file: matches.get_str("FILE"),
        tick_ns: tick_ns(matches),
    }
}

/// The words of `diff`.
pub(crate) fn diff_words<'w>(matches: &'w ArgMatches<'_>, form: Form) -> DiffWords<'w> {
    DiffWords {
        form,
        old: matches.get_str("OLD"),
        new: matches.get_str("NEW"),
        tick_ns: tick_ns(matches),
    }
}

/// Does `export`, in the format that the words name.
pub(crate) fn export(rt: &HostRuntime, matches: &ArgMatches<'_>) -> Result<(), Fault> {
    suits_format(matches, matches.get_str("FORMAT").unwrap_or(""))?;
    match matches.get_str("FORMAT") {
        Some("rtds") => export_lines(rt, &line_words(matches, LineForm::Rtds)),
        Some("deadline") if matches.get_flag("full") => {
            export_lines(rt, &line_words(matches, LineForm::FullDeadline))
        }
        Some("deadline") => export_lines(rt, &line_words(matches, LineForm::Deadline)),
        Some("cgroup") => export_lines(rt, &line_words(matches, LineForm::Cgroup)),
        Some("libvirt") => export_lines(rt, &line_words(matches, LineForm::Libvirt)),
        Some("scx") => export_tables(rt, matches.get_str("FILE")),
        Some("judge") => export_run(rt, &run_words(matches)),
        Some("chrome") => export_view(rt, &export_words(matches, Format::Chrome)),
        Some("json") => export_view(rt, &export_words(matches, Format::Json)),
        _ => export_view(rt, &export_words(matches, Format::Csv)),
    }
}

// Refuses an option that says nothing of the format.
fn suits_format(matches: &ArgMatches<'_>, format: &str) -> Result<(), Fault> {
    let has_times = format == "chrome" || format == "json" || format == "judge";
    let is_whole = has_times || format == "csv" || format == "scx";
    if matches.get_flag("full") && format != "deadline" {
        return other_format("--full", "deadline");
    }
    if matches.get_one::<u32>("first-cpu").is_some() && is_whole {
        return other_format("--first-cpu", "rtds, deadline, cgroup and libvirt");
    }
    if matches.get_str("cpus").is_some() && is_whole {
        return other_format("--cpus", "rtds, deadline, cgroup and libvirt");
    }
    if matches.get_str("cpus").is_some() && matches.get_one::<u32>("first-cpu").is_some() {
        return Err(Fault::TwoCpus);
    }
    if matches.get_str("map").is_some() && is_whole {
        return other_format("--map", "rtds, deadline, cgroup and libvirt");
    }
    if matches.get_str("tick").is_some() && !has_times {
        return other_format("--tick", "chrome, json and judge");
    }
    Ok(())
}

// Refuses an option that goes with these formats alone.
fn other_format(option: &'static str, formats: &'static str) -> Result<(), Fault> {
    Err(Fault::OtherFormat { option, formats })
}

// The words of `export` for a scheduler.
fn line_words<'w>(matches: &'w ArgMatches<'_>, form: LineForm) -> LineWords<'w> {
    LineWords {
        form,
        file: matches.get_str("FILE"),
        map: matches.get_str("map"),
        first_cpu: matches.get_one::<u32>("first-cpu"),
        cpus: matches.get_str("cpus"),
    }
}

// The words of `export` for other programs.
fn export_words<'w>(matches: &'w ArgMatches<'_>, format: Format) -> ExportWords<'w> {
    ExportWords {
        format,
        file: matches.get_str("FILE"),
        tick_ns: tick_ns(matches),
    }
}

// The words of `export` for the judge.
fn run_words<'w>(matches: &'w ArgMatches<'_>) -> RunWords<'w> {
    RunWords {
        file: matches.get_str("FILE"),
        tick_ns: tick_ns(matches),
    }
}

/// The words of `judge`.
pub(crate) fn judge_words<'w>(matches: &'w ArgMatches<'_>) -> JudgeWords<'w> {
    JudgeWords {
        host: matches.get_str("HOST"),
        trace: matches.get_str("TRACE"),
        plan: matches.get_str("plan"),
        window: matches.get_str("window"),
        is_json: matches.get_flag("json"),
    }
}

/// The words of `host` and of `fit`.
pub(crate) fn size_words<'w, 'm: 'w>(matches: &'w ArgMatches<'m>) -> SizeWords<'w> {
    SizeWords {
        cores: matches.get_one::<u32>("cores"),
        tick_ns: tick_ns(matches),
        no_split: matches.get_flag("no-split"),
        sizes: matches.get_strs("SIZE"),
        empty: matches.get_flag("empty"),
    }
}

/// The words of `place`.
pub(crate) fn place_words<'w, 'm: 'w>(matches: &'w ArgMatches<'m>) -> PlaceWords<'w> {
    PlaceWords {
        hosts: matches.get_one::<u32>("hosts"),
        cores: matches.get_one::<u32>("cores"),
        kinds: matches.get_str("kinds"),
        stay: matches.get_str("stay"),
        host: matches.get_one::<u32>("host"),
        documents: matches.get_flag("documents"),
        summary: matches.get_flag("summary"),
        tick_ns: tick_ns(matches),
        no_split: matches.get_flag("no-split"),
        spread: matches.get_flag("spread"),
        sizes: matches.get_strs("SIZE"),
        empty: matches.get_flag("empty"),
    }
}
