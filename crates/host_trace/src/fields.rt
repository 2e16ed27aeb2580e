ghost use Rattle.std.specs.Prelude.{◌≡◌, ◌∷◌, [], MatchOption};
ghost use Rattle.host_trace.specs.Inside.Written.{fields_in};
ghost use Rattle.host_trace.specs.TraceLines.{Fields, field_list, fields_of};

// The fields of a line of a trace, as they are written.
#[derive(Drop)]
pub(crate) struct Written<'a> {
    pub(crate) time: &'a [u8],
    pub(crate) name: &'a [u8],
    pub(crate) state: &'a [u8],
    pub(crate) cpu: Option<&'a [u8]>,
}

// The fields that the line has, where they are three or four.
pub(crate) fn written_in(line: &[u8]) -> Option<Written<'_>>
    ensures { MatchOption result ((fields : Fields) → fields_of line.now ≡ field_list fields → ⊥)
        (λ written. fields_of line.now ≡ field_list (fields_in written)) }
{
    let (time, behind_time) = first_field(line);
    let Some(from_name) = behind_time else {
        return None;
    };
    let (name, behind_name) = first_field(from_name);
    let Some(from_state) = behind_name else {
        return None;
    };
    let (state, behind_state) = first_field(from_state);
    let Some(from_cpu) = behind_state else {
        return Some(Written {
            time,
            name,
            state,
            cpu: None,
        });
    };
    let (cpu, behind_cpu) = first_field(from_cpu);
    match behind_cpu {
        Some(_) => None,
        None => Some(Written {
            time,
            name,
            state,
            cpu: Some(cpu),
        }),
    }
}

// The bytes before the line's first comma, and those after it where it has one.
fn first_field(line: &[u8]) -> (&[u8], Option<&[u8]>)
    ensures { MatchOption result.1 (fields_of line.now ≡ result.0.now ∷ [])
        (λ rest. fields_of line.now ≡ result.0.now ∷ fields_of rest.now) }
{
    match line.iter().position(|byte| *byte == b',') {
        Some(end) => (&line[..end], Some(&line[end + 1..])),
        None => (line, None),
    }
}
