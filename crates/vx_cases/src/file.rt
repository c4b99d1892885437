use crate::Case;
use std::alloc::{AllocError, Global};

// What has been read of a file: the cases, the last of which may go on, whether that one is a row of a table, and the lines
// of the table before and behind those of each row.
#[derive(Drop)]
struct Reading<'a> {
    alloc: Global,
    cases: Vec<Case<'a>>,
    is_row: bool,
    before: Vec<&'a str>,
    after: Vec<&'a str>,
}

/// The cases of a file, in order.
pub fn cases<'a>(alloc: Global, file: &'a str) -> Result<Vec<Case<'a>>, AllocError> {
    let mut reading = Reading {
        alloc,
        cases: Vec::new(alloc),
        is_row: false,
        before: Vec::new(alloc),
        after: Vec::new(alloc),
    };
    for line in file.lines() {
        reading.read(line)?;
    }
    reading.end_case()?;
    Ok(reading.cases)
}

impl<'a> Reading<'a> {
    fn read(&mut self, line: &'a str) -> Result<(), AllocError> {
        if line.starts_with("====") {
            self.end_case()?;
            self.is_row = false;
            self.before.clear();
            self.after.clear();
            let lines = Vec::new(self.alloc);
            return Ok(self.cases.push(Case::new(line, lines))?);
        }
        if line.starts_with("----") {
            self.end_case()?;
            self.is_row = true;
            let lines = self.before.as_slice().to_vec(self.alloc)?;
            return Ok(self.cases.push(Case::new(line, lines))?);
        }
        self.go_on(line)
    }

    // Reads a line that is no title.
    fn go_on(&mut self, line: &'a str) -> Result<(), AllocError> {
        if let Some(rest) = line.strip_prefix("%before ") {
            return Ok(self.before.push(rest)?);
        }
        if let Some(rest) = line.strip_prefix("%after ") {
            return Ok(self.after.push(rest)?);
        }
        match self.cases.last_mut() {
            Some(case) => case.push(line),
            None => Ok(()),
        }
    }

    // Leaves out the blank lines at the end of the last case, and puts those of its table behind it.
    fn end_case(&mut self) -> Result<(), AllocError> {
        let Some(case) = self.cases.last_mut() else {
            return Ok(());
        };
        case.drop_blank_end();
        if self.is_row {
            for line in self.after.as_slice() {
                case.push(*line)?;
            }
        }
        Ok(())
    }
}
