// The prints of windows.
use regression_chunker::Print;
use row_files::{Answers, Asked, RowFault};
use std::alloc::Global;

/// Answers each line `HEX ZEROS` by the print of the window behind these bytes and so many zeros.
pub fn answer(alloc: Global, asked: &[u8], answers: &mut Answers) -> Result<(), RowFault> {
    for line in asked.split(|byte| *byte == b'\n') {
        if !line.is_empty() {
            let print = print_of(alloc, Asked::new(line))?;
            answers.line(&format!(in alloc; "{print:x}")?)?;
        }
    }
    Ok(())
}

fn print_of(alloc: Global, mut asked: Asked<'_>) -> Result<u64, RowFault> {
    let bytes = asked.bytes(alloc)?;
    let zeros = asked.number()?;
    let mut print = Print::new();
    let last = push_all(&mut print, &bytes);
    Ok(if zeros == 0 {
        last
    } else {
        push_zeros(&mut print, zeros)
    })
}

fn push(print: &mut Print, byte: u8) -> u64 {
    print.push(byte)
}

fn push_all(print: &mut Print, bytes: &[u8]) -> u64 {
    let mut last = 0;
    for byte in bytes {
        last = push(print, *byte);
    }
    last
}

fn push_zeros(print: &mut Print, count: u64) -> u64 {
    let mut last = 0;
    for _ in 0..count {
        last = push(print, 0);
    }
    last
}
