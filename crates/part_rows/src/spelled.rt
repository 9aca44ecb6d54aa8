// Records, as their tables spell them.
use row_files::Answers;
use std::alloc::AllocError;
use table_records::{NameTable, Table, is_well_formed};

/// Tells the key and the value of a record, and where they are not well formed.
fn tell(answers: &mut Answers, key: &[u8], value: &[u8]) -> Result<(), AllocError> {
    answers.part_shown(key)?;
    answers.part(b" ")?;
    answers.part_shown(value)?;
    answers.line(if is_well_formed(key, value) {
        ""
    } else {
        " is not well formed"
    })
}

/// Tells a record of a table.
pub fn record<T: Table>(
    answers: &mut Answers,
    key: T::Key,
    value: T::Value,
) -> Result<(), AllocError> {
    let mut keys = [0xff; 32];
    let mut values = [0xff; 64];
    let key_length = T::write_key(key, &mut keys);
    let value_length = T::write_value(value, &mut values);
    tell(answers, &keys[..key_length], &values[..value_length])
}

/// Tells a name with its file.
pub fn name(answers: &mut Answers, name: &[u8], id: u64) -> Result<(), AllocError> {
    if name.len() > 255 {
        return answers.line("is too long");
    }
    let mut keys = [0xff; 256];
    let mut values = [0xff; 64];
    let key_length = NameTable::write_key(name, &mut keys);
    let value_length = NameTable::write_value(id, &mut values);
    tell(answers, &keys[..key_length], &values[..value_length])
}
