use std::alloc::{AllocError, Global};

// A longer line is shown by its ends and its length.
const LINE_BYTES: usize = 200;

// The bytes that are shown of each end of such a line.
const END_BYTES: usize = 32;

/// Puts the status, if it is not 0, and what was written behind the text. `~` stands where the last line has no end.
pub fn show(
    alloc: Global,
    text: &mut Vec<u8>,
    status: u8,
    written: &[u8],
) -> Result<(), AllocError> {
    if status != 0 {
        let line = format!(in alloc; "status {status}\n")?;
        text.extend_from_slice(line.as_bytes())?;
    }
    match str::from_utf8(written) {
        Ok(written) => show_lines(alloc, text, written),
        Err(_) => Ok(text.extend_from_slice(b"no text\n")?),
    }
}

fn show_lines(alloc: Global, text: &mut Vec<u8>, written: &str) -> Result<(), AllocError> {
    for line in written.lines() {
        show_line(alloc, text, line.as_bytes())?;
        text.push(b'\n')?;
    }
    if !written.is_empty() && !written.ends_with("\n") {
        text.extend_from_slice(b"~\n")?;
    }
    Ok(())
}

fn show_line(alloc: Global, text: &mut Vec<u8>, line: &[u8]) -> Result<(), AllocError> {
    let length = line.len();
    if length <= LINE_BYTES {
        return Ok(text.extend_from_slice(line)?);
    }
    let last = length.saturating_sub(END_BYTES);
    text.extend_from_slice(line.get(..END_BYTES).unwrap_or(line))?;
    text.extend_from_slice(b" .. ")?;
    text.extend_from_slice(line.get(last..).unwrap_or(line))?;
    let count = format!(in alloc; " ({length} bytes)")?;
    Ok(text.extend_from_slice(count.as_bytes())?)
}
