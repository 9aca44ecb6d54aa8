// Texts that a line makes.
use crate::draws::next_state;
use row_files::{Asked, RowFault};
use std::alloc::{AllocError, Global};

/// The text of a line: `zeros COUNT`, `zeros-but COUNT PLACE HEX` with these bytes at a place, `random EIGHTS SEED` of
/// so many times eight bytes, or `again TIMES SENTENCE`.
pub fn text_of(alloc: Global, mut asked: Asked<'_>) -> Result<Vec<u8>, RowFault> {
    Ok(match asked.word() {
        b"zeros" => zeros(alloc, asked.size()?)?,
        b"zeros-but" => zeros_but(alloc, asked)?,
        b"random" => {
            let eights = asked.size()?;
            random_bytes(alloc, eights, asked.some_number().unwrap_or(1))?
        }
        b"again" => {
            let times = asked.size()?;
            repeated(alloc, asked.rest(), times)?
        }
        _ => return Err(RowFault::NoQuestion),
    })
}

fn zeros(alloc: Global, count: usize) -> Result<Vec<u8>, AllocError> {
    vec![in alloc; 0u8; count]
}

fn zeros_but(alloc: Global, mut asked: Asked<'_>) -> Result<Vec<u8>, RowFault> {
    let mut text = zeros(alloc, asked.size()?)?;
    let place = asked.size()?;
    let bytes = asked.bytes(alloc)?;
    for (k, byte) in bytes.iter().enumerate() {
        if let Some(at) = text.get_mut(place.saturating_add(k)) {
            *at = *byte;
        }
    }
    Ok(text)
}

fn random_bytes(alloc: Global, eights: usize, seed: u64) -> Result<Vec<u8>, AllocError> {
    let mut bytes = Vec::new(alloc);
    let mut state = seed;
    for _ in 0..eights {
        state = next_state(state);
        bytes.extend_from_slice(&state.to_le_bytes())?;
    }
    Ok(bytes)
}

fn repeated(alloc: Global, sentence: &[u8], times: usize) -> Result<Vec<u8>, AllocError> {
    let mut bytes = Vec::new(alloc);
    for _ in 0..times {
        bytes.extend_from_slice(sentence)?;
    }
    Ok(bytes)
}
