use std::alloc::{AllocError, Global};
use vx_batch::report_text;
use vx_image::{LoadFault, Loaded, load};
use vx_machine::run;

/// The answer to a line.
pub fn answer(alloc: Global, line: &str) -> Result<Vec<u8>, AllocError> {
    if let Some(image) = line.strip_prefix("load ") {
        return load_text(alloc, loaded(alloc, image));
    }
    if let Some(image) = line.strip_prefix("broken ") {
        return broken_text(alloc, image);
    }
    if let Some(rest) = line.strip_prefix("run ") {
        if let Some((count, image)) = rest.split_once(' ') {
            return run_text(alloc, count.parse::<u32>().unwrap_or(0), image);
        }
    }
    let mut copy = Vec::from_slice(alloc, line.as_bytes())?;
    copy.push(b'\n')?;
    Ok(copy)
}

// The image that the hexadecimal digits stand for. Others stand for no bytes.
fn loaded(alloc: Global, image: &str) -> Result<Loaded, LoadFault> {
    match hex::decode(alloc, image) {
        Ok(bytes) => load(alloc, bytes.as_slice()),
        Err(_) => load(alloc, &[]),
    }
}

fn load_text(alloc: Global, loaded: Result<Loaded, LoadFault>) -> Result<Vec<u8>, AllocError> {
    match loaded {
        Ok(_) => Vec::from_slice(alloc, b"loaded\n"),
        Err(fault) => fault_text(alloc, fault),
    }
}

fn run_text(alloc: Global, count: u32, image: &str) -> Result<Vec<u8>, AllocError> {
    match loaded(alloc, image) {
        Ok(image) => report_text(alloc, &run(alloc, &image, count)?),
        Err(fault) => fault_text(alloc, fault),
    }
}

fn fault_text(alloc: Global, fault: LoadFault) -> Result<Vec<u8>, AllocError> {
    let text = match fault {
        LoadFault::Short(place) => format!(in alloc; "short {place}\n")?,
        LoadFault::BadMagic => format!(in alloc; "bad magic\n")?,
        LoadFault::Version(byte) => format!(in alloc; "version {byte}\n")?,
        LoadFault::BadIndex(place) => format!(in alloc; "bad index {place}\n")?,
        LoadFault::Trailing(place) => format!(in alloc; "trailing {place}\n")?,
        LoadFault::OutOfMemory => return Err(AllocError),
    };
    Vec::from_slice(alloc, text.as_bytes())
}

// What loading the bytes broken answers: each front of them, the shortest first, and then the bytes with one of them changed.
fn broken_text(alloc: Global, image: &str) -> Result<Vec<u8>, AllocError> {
    let mut text = Vec::new(alloc);
    if let Ok(mut bytes) = hex::decode(alloc, image) {
        for length in 0..bytes.len() {
            tell(
                alloc,
                &mut text,
                bytes.as_slice().get(..length).unwrap_or(&[]),
            )?;
        }
        for place in 0..bytes.len() {
            change(alloc, &mut text, &mut bytes, place)?;
        }
    }
    Ok(text)
}

// Puts the answer to loading the bytes behind the text.
fn tell(alloc: Global, text: &mut Vec<u8>, bytes: &[u8]) -> Result<(), AllocError> {
    let answer = load_text(alloc, load(alloc, bytes))?;
    Ok(text.extend_from_slice(answer.as_slice())?)
}

// Tells of the bytes with the one at the place greater by 1, by 128 and by 255; then it is as before.
fn change(
    alloc: Global,
    text: &mut Vec<u8>,
    bytes: &mut Vec<u8>,
    place: usize,
) -> Result<(), AllocError> {
    raise(bytes, place, 1);
    tell(alloc, text, bytes.as_slice())?;
    raise(bytes, place, 127);
    tell(alloc, text, bytes.as_slice())?;
    raise(bytes, place, 127);
    tell(alloc, text, bytes.as_slice())?;
    raise(bytes, place, 1);
    Ok(())
}

// Makes the byte at the place greater, past 255 from 0 on.
fn raise(bytes: &mut Vec<u8>, place: usize, more: u8) {
    if let Some(byte) = bytes.get_mut(place) {
        *byte = byte.wrapping_add(more);
    }
}
