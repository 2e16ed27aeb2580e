use tool_input::Fault;

/// What is written of plans.
#[derive(Clone, Copy)]
pub enum Form {
    /// Tables or lines, by vCPU.
    ByVcpu,
    /// Tables or lines, by VM.
    ByVm,
    /// JSON.
    Json,
    /// Comma-separated values.
    Csv,
}

/// The form that is asked for, of which no more than one is.
pub fn form_of(by_vm: bool, is_json: bool, is_csv: bool) -> Result<Form, Fault> {
    match (by_vm, is_json, is_csv) {
        (false, false, false) => Ok(Form::ByVcpu),
        (true, false, false) => Ok(Form::ByVm),
        (false, true, false) => Ok(Form::Json),
        (false, false, true) => Ok(Form::Csv),
        _ => Err(Fault::OtherForms),
    }
}
