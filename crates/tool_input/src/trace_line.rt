use tab_words::read_number;

/// What is wrong with a line of a trace: its first field that isn't as it has to be; nothing where each is.
pub fn trace_fault(line: &[u8]) -> Option<&'static str> {
    let (time, Some(rest)) = cut(line) else {
        return Some("it has no vCPU and state");
    };
    let (name, Some(rest)) = cut(rest) else {
        return Some("it has no state");
    };
    let (state, cpu) = cut(rest);
    if read_number(time).is_none() {
        Some("its time isn't a whole number of nanoseconds")
    } else if name.is_empty() {
        Some("it names no vCPU")
    } else if !is_state(state) {
        Some("its state isn't run, wait or block")
    } else if !is_cpu(cpu) {
        Some("what is after its state isn't the number of a CPU")
    } else {
        None
    }
}

// What is before the first comma, and what is after it if there is one.
fn cut(line: &[u8]) -> (&[u8], Option<&[u8]>) {
    match line.iter().position(|byte| *byte == b',') {
        Some(at) => (&line[..at], Some(&line[at + 1..])),
        None => (line, None),
    }
}

fn is_state(word: &[u8]) -> bool {
    word == b"run".as_slice() || word == b"wait".as_slice() || word == b"block".as_slice()
}

// Whether the field may be there: it is none, or the number of a CPU.
fn is_cpu(field: Option<&[u8]>) -> bool {
    match field {
        Some(word) => match read_number(word) {
            Some(number) => number <= u64::from(u32::MAX),
            None => false,
        },
        None => true,
    }
}
