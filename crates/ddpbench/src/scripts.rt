// Scripts that store files, and that write them anew.
use crate::random::{add_random, mixed};
use std::alloc::{AllocError, Global};

/// The bytes of one file: a MiB.
pub const FILE_BYTES: u64 = 1_048_576;

/// The bytes of a block of a file.
pub const BLOCK_BYTES: u64 = ddpsh::CLUSTER_BYTES as u64;

/// The bytes of a part that is written anew, and how many of them are as long as a file.
pub const PART_BYTES: u64 = 65_536;

const PARTS: u64 = FILE_BYTES / PART_BYTES;

/// How many blocks of a file a part may begin at.
const BEGINNINGS: u64 = (FILE_BYTES - PART_BYTES) / BLOCK_BYTES + 1;

/// Of so many files one is deleted and stored again.
const DELETED_OF: u32 = 4;

/// A flush comes after so many files that were written anew, which is 16 MiB.
const FLUSHED: u32 = 16;

/// Adds random bytes and their newline. Payloads of different numbers differ.
pub fn add_payload(script: &mut Vec<u8>, number: u64, bytes: u64) -> Result<(), AllocError> {
    add_random(script, number ^ 0x9e37_79b9_7f4a_7c15, (bytes / 8) as usize)?;
    script.push(b'\n')?;
    Ok(())
}

/// Adds lines that create a file and write its MiB.
fn add_file(alloc: Global, script: &mut Vec<u8>, file: u32, number: u64) -> Result<(), AllocError> {
    let lines = format!(in alloc; "create file-{file}\nwrite file-{file} 0 {FILE_BYTES}\n")?;
    script.extend_from_slice(lines.as_bytes())?;
    add_payload(script, number, FILE_BYTES)
}

/// A script that creates so many files, writes a MiB to each, and flushes.
pub fn ingest_script(alloc: Global, files: u32) -> Result<Vec<u8>, AllocError> {
    let mut script = Vec::new(alloc);
    for file in 0..files {
        add_file(alloc, &mut script, file, u64::from(file))?;
    }
    script.extend_from_slice(b"flush\n")?;
    Ok(script)
}

/// Adds lines that write parts of a file anew, as many bytes as the file has, each part at a random block.
fn add_parts(alloc: Global, script: &mut Vec<u8>, file: u32) -> Result<(), AllocError> {
    let first = 2048 + u64::from(file) * PARTS;
    for number in first..first + PARTS {
        add_part(alloc, script, file, number)?;
    }
    Ok(())
}

/// Adds a line that writes a part of a file anew, at a block that the part's number draws.
fn add_part(alloc: Global, script: &mut Vec<u8>, file: u32, number: u64) -> Result<(), AllocError> {
    let at = mixed(number) % BEGINNINGS * BLOCK_BYTES;
    let line = format!(in alloc; "write file-{file} {at} {PART_BYTES}\n")?;
    script.extend_from_slice(line.as_bytes())?;
    add_payload(script, number, PART_BYTES)
}

/// Adds lines that write a MiB of a file anew: parts of it, or all of it once it was deleted.
fn add_rewrite(alloc: Global, script: &mut Vec<u8>, file: u32) -> Result<(), AllocError> {
    if file % DELETED_OF != 0 {
        return add_parts(alloc, script, file);
    }
    let line = format!(in alloc; "delete file-{file}\n")?;
    script.extend_from_slice(line.as_bytes())?;
    add_file(alloc, script, file, 1024 + u64::from(file))
}

/// A script that writes the files of an ingest anew, a MiB to each: of each four the first is deleted, created and
/// written whole, and each other is written over in 16 parts of 64 KiB, at random places that are multiples of 4,096
/// and may overlap. It flushes after each 16 files, and at the end.
pub fn rewrite_script(alloc: Global, files: u32) -> Result<Vec<u8>, AllocError> {
    let mut script = Vec::new(alloc);
    for file in 0..files {
        add_rewrite(alloc, &mut script, file)?;
        if file % FLUSHED == FLUSHED - 1 {
            script.extend_from_slice(b"flush\n")?;
        }
    }
    script.extend_from_slice(b"flush\n")?;
    Ok(script)
}

/// A script that reads so many files whole.
pub fn read_script(alloc: Global, files: u32) -> Result<Vec<u8>, AllocError> {
    let mut script = Vec::new(alloc);
    for file in 0..files {
        let line = format!(in alloc; "read file-{file} 0 {FILE_BYTES}\n")?;
        script.extend_from_slice(line.as_bytes())?;
    }
    Ok(script)
}
