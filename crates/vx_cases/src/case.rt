use std::alloc::{AllocError, Global};

/// A case of a file: its title and its lines, those of its table among them.
#[derive(Debug, Drop)]
pub struct Case<'a> {
    title: &'a str,
    lines: Vec<&'a str>,
}

impl<'a> Case<'a> {
    pub(crate) fn new(title: &'a str, lines: Vec<&'a str>) -> Case<'a> {
        Case { title, lines }
    }

    pub(crate) fn push(&mut self, line: &'a str) -> Result<(), AllocError> {
        Ok(self.lines.push(line)?)
    }

    // Leaves out the blank lines at the end.
    pub(crate) fn drop_blank_end(&mut self) {
        for _ in 0..self.lines.len() {
            if self.lines.last().is_some_and(|line| !line.is_empty()) {
                break;
            }
            self.lines.pop();
        }
    }

    /// The line that begins the case.
    pub fn title(&self) -> &'a str {
        self.title
    }

    /// What stands behind the first of these words that begins a line.
    pub fn setting(&self, word: &str) -> Option<&'a str> {
        for line in self.lines.as_slice() {
            if let Some(rest) = line.strip_prefix(word) {
                return Some(rest);
            }
        }
        None
    }

    /// The bytes that the lines spell.
    pub fn text(&self, alloc: Global) -> Result<Vec<u8>, AllocError> {
        let mut text = Vec::new(alloc);
        let mut has_ended = false;
        for line in self.lines.as_slice() {
            if has_ended {
                text.push(b'\n')?;
            }
            has_ended = spell(alloc, &mut text, line)?;
        }
        Ok(text)
    }
}

// Puts what the line spells behind the text, and tells whether a line end follows it.
fn spell(alloc: Global, text: &mut Vec<u8>, line: &str) -> Result<bool, AllocError> {
    if let Some(words) = line.strip_prefix("%text ") {
        text.extend_from_slice(words.as_bytes())?;
        return Ok(false);
    }
    if let Some(words) = line.strip_prefix("%byte ") {
        spell_byte(alloc, text, words)?;
        return Ok(false);
    }
    if let Some(words) = line.strip_prefix("%repeat ") {
        spell_often(alloc, text, words)?;
        return Ok(false);
    }
    if line.starts_with("%") {
        return Ok(false);
    }
    text.extend_from_slice(line.as_bytes())?;
    Ok(true)
}

// A code, and how often the byte is to stand there.
fn spell_byte(alloc: Global, text: &mut Vec<u8>, words: &str) -> Result<(), AllocError> {
    let (code, times) = words.split_once(' ').unwrap_or((words, "1"));
    if let (Ok(code), Ok(times)) = (code.parse::<u8>(), times.parse::<usize>()) {
        let bytes = vec![in alloc; code; times]?;
        text.extend_from_slice(bytes.as_slice())?;
    }
    Ok(())
}

// How often words are to stand there, and the words.
fn spell_often(alloc: Global, text: &mut Vec<u8>, words: &str) -> Result<(), AllocError> {
    let (times, words) = words.split_once(' ').unwrap_or((words, ""));
    if let Ok(times) = times.parse::<u32>() {
        for turn in 0..times {
            spell_turn(alloc, text, words, turn)?;
        }
    }
    Ok(())
}

// The words with numbers in the places of the signs that stand for them.
fn spell_turn(alloc: Global, text: &mut Vec<u8>, words: &str, turn: u32) -> Result<(), AllocError> {
    for byte in words.as_bytes() {
        match *byte {
            b'#' => spell_number(alloc, text, u64::from(turn))?,
            b'$' => spell_number(alloc, text, u64::from(turn) + 1)?,
            other => text.push(other)?,
        }
    }
    Ok(())
}

fn spell_number(alloc: Global, text: &mut Vec<u8>, number: u64) -> Result<(), AllocError> {
    let digits = format!(in alloc; "{number}")?;
    Ok(text.extend_from_slice(digits.as_bytes())?)
}
