// The form of the report of an input's faults.

/// Lines for a person to read, or JSON objects.
#[derive(Clone, Copy)]
pub(crate) enum Form {
    Lines,
    Json,
}
