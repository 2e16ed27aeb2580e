ghost use Rattle.std.specs.Prelude.{◌≡◌, ◌<◌, ◌≤◌, ◌^◌, All, IfOk, IsSome, false, length};
ghost use Rattle.script_doc.specs.Statements.{statements_of};
ghost use Rattle.sizes_doc.specs.SizeLines.{AreSizes};
ghost use Rattle.tab_core.specs.declared.TheConstants.{MAX_CORES, MAX_TICK_NS, MIN_TICK_NS};

use host_gen::write_host;
use sizes_doc::{Size, SizesFault, host_of_sizes, name_in_sizes, read_sizes};
use std::alloc::Global;
use tab_core::{Host, MAX_CORES, MAX_TICK_NS, MIN_TICK_NS, TICK_NS};
use tool_input::{Fault, ends_in_return, finish, input_of, line_of, output_of, shown};

// The most bytes of sizes that are taken from words.
const ROOM: usize = 1_048_576;

/// What the words of `host` and of `fit` say. Only `fit` goes by `no_split`.
#[derive(Clone, Copy)]
pub struct SizeWords<'w> {
    /// The cores of the host.
    pub cores: Option<u32>,
    /// Nanoseconds of a tick.
    pub tick_ns: Option<u32>,
    /// Whether the host has no room if its plan would split a vCPU.
    pub no_split: bool,
    /// The sizes; lines of standard input where there are none.
    pub sizes: Option<&'w [&'w str]>,
    /// Whether there may be no size.
    pub empty: bool,
}

/// Does `host`: it writes the document of the host that the sizes make.
pub fn host(rt: &HostRuntime, words: &SizeWords<'_>) -> Result<(), Fault> {
    // (the words were refused if the tick is out of its range)
    let cores = cores_of(words.cores)?;
    let tick_ns = words
        .tick_ns
        .unwrap_or(TICK_NS)
        .clamp(MIN_TICK_NS, MAX_TICK_NS);
    let text = text_of(rt, words.sizes)?;
    let host = host_from(rt.alloc(), &text, words.empty, cores, tick_ns)?;
    put_host(rt, &host)
}

/// The cores of a host, of which the words name one or more.
pub(crate) fn cores_of(cores: Option<u32>) -> Result<u32, Fault>
    ensures some { IfOk result (λ cores. 1 ≤ cores) }
    ensures few { IfOk result (λ cores. cores ≤ MAX_CORES) }
{
    let cores = cores.unwrap_or(1).max(1);
    if cores > MAX_CORES {
        return Err(Fault::ManyCores { cores });
    }
    Ok(cores)
}

/// The sizes as lines: those of the words, or of standard input where there are none.
pub(crate) fn text_of(rt: &HostRuntime, sizes: Option<&[&str]>) -> Result<Vec<u8>, Fault>
    ensures { IfOk result (λ text. length text.items < 2 ^ 32) }
{
    let Some(words) = sizes else {
        return Ok(input_of(rt, None)?.bytes);
    };
    let mut text = Vec::new(rt.alloc());
    for word in words {
        if word.len() > ROOM || text.len() > ROOM {
            return Err(too_long(rt));
        }
        text.extend_from_slice(word.as_bytes())?;
        text.push(b'\n')?;
    }
    if text.len() > 2 * ROOM {
        return Err(too_long(rt));
    }
    Ok(text)
}

// The sizes of the words are too long.
fn too_long(rt: &HostRuntime) -> Fault {
    Fault::TooLong {
        place: String::new(rt.alloc()),
    }
}

/// The sizes of a text, a line each. Without one the text is refused, unless it may be empty.
pub(crate) fn sizes_of(alloc: Global, text: &[u8], empty: bool) -> Result<Vec<Size<'_>>, Fault>
    requires { length text.now < 2 ^ 32 }
    ensures sizes { IfOk result (λ sizes. AreSizes (statements_of text.now) sizes.items) }
    ensures some { IfOk result (λ sizes. empty ≡ false → 0 < length sizes.items) }
{
    match read_sizes(alloc, text) {
        Ok(sizes) => some_of(sizes, empty),
        Err(fault) => Err(unread_sizes(alloc, text, fault)),
    }
}

// The sizes, if there is one or there may be none.
fn some_of(sizes: Vec<Size<'_>>, empty: bool) -> Result<Vec<Size<'_>>, Fault>
    ensures same { IfOk result (λ some. some.items ≡ sizes.entry.items) }
    ensures some { IfOk result (λ some. empty ≡ false → 0 < length some.items) }
{
    if sizes.is_empty() && !empty {
        return Err(Fault::NoSizes);
    }
    Ok(sizes)
}

// The host that the lines of sizes make.
fn host_from(
    alloc: Global,
    text: &[u8],
    empty: bool,
    cores: u32,
    tick_ns: u32,
) -> Result<Host, Fault>
    requires short { length text.now < 2 ^ 32 }
    requires some_core { 1 ≤ cores }
    requires few_cores { cores ≤ MAX_CORES }
    requires least_tick { MIN_TICK_NS ≤ tick_ns }
    requires most_tick { tick_ns ≤ MAX_TICK_NS }
    ensures { IfOk result (λ host. All (λ vcpu. IsSome vcpu.reservation) host.vcpus) }
{
    let sizes = sizes_of(alloc, text, empty)?;
    match host_of_sizes(alloc, cores, tick_ns, sizes.as_slice()) {
        Ok(host) => Ok(host),
        Err(fault) => Err(host_fault(alloc, sizes.as_slice(), fault)),
    }
}

// Why lines aren't read as sizes, with the first bad one. Where that ends in a carriage return, it is said.
fn unread_sizes(alloc: Global, text: &[u8], fault: SizesFault) -> Fault {
    let SizesFault::BadSize { line, part } = fault else {
        return Fault::from(fault);
    };
    let size = line_of(text, line).unwrap_or_default();
    if ends_in_return(size) {
        return Fault::Return {
            place: String::new(alloc),
            line: u64::from(line),
        };
    }
    match shown(alloc, size) {
        Ok(text) => Fault::BadSize { line, text, part },
        Err(_) => Fault::NoMemory,
    }
}

/// Why the sizes make no host, with the name that is at fault.
pub(crate) fn host_fault(alloc: Global, sizes: &[Size<'_>], fault: SizesFault) -> Fault {
    match fault {
        SizesFault::SameName { vcpu } => same_name(alloc, sizes, vcpu),
        SizesFault::BadName { line } => bad_name_in(alloc, sizes, line),
        fault => Fault::from(fault),
    }
}

// The fault of two sizes that make vCPUs of one name, which that of this number has.
fn same_name(alloc: Global, sizes: &[Size<'_>], vcpu: u32) -> Fault {
    match name_in_sizes(alloc, sizes, vcpu) {
        Ok(Some(name)) => match shown(alloc, &name) {
            Ok(name) => Fault::SameName { name },
            Err(_) => Fault::NoMemory,
        },
        Ok(None) => Fault::from(SizesFault::SameName { vcpu }),
        Err(fault) => Fault::from(fault),
    }
}

// The fault of the size of this line, whose name makes no names of vCPUs.
fn bad_name_in(alloc: Global, sizes: &[Size<'_>], line: u32) -> Fault {
    for size in sizes {
        if size.line == line {
            return bad_name(alloc, size.name, line);
        }
    }
    Fault::from(SizesFault::BadName { line })
}

/// The fault of this name, of the size of this line, which makes no names of vCPUs.
pub(crate) fn bad_name(alloc: Global, name: &[u8], line: u32) -> Fault {
    match shown(alloc, name) {
        Ok(name) => Fault::BadName { line, name },
        Err(_) => Fault::NoMemory,
    }
}

// Writes the host's document to standard output.
fn put_host(rt: &HostRuntime, host: &Host) -> Result<(), Fault>
    requires { All (λ vcpu. IsSome vcpu.reservation) host.now.vcpus }
{
    let mut sink = output_of(rt)?;
    write_host(&mut sink, host)?;
    finish(&mut sink)
}
