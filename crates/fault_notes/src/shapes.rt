// How many elements the variables of a run have that don't grow.
use crate::cursor::word_at;
use crate::definition::Definition;
use crate::lines::Line;
use nc_base::{Header, Var};
use script_words::numbers::{between_brackets, size_of_text};
use script_words::{ListParts, Names};
use std::alloc::{AllocError, Global};

// How many elements there are of each name; none where they grow.
#[derive(Drop)]
struct Counts<'a> {
    names: Names<'a>,
    counts: Vec<Option<u64>>,
}

impl<'a> Counts<'a> {
    fn new(alloc: Global) -> Self {
        Counts {
            names: Names::new(alloc),
            counts: Vec::new(alloc),
        }
    }

    fn of(&self, name: &'a [u8]) -> Option<u64> {
        *self.counts.get(self.names.find(name)?)?
    }

    // Adds a name, where it is not there.
    fn add(&mut self, name: &'a [u8], count: Option<u64>) -> Result<(), AllocError> {
        if !self.names.contains(name) {
            self.names.push(name)?;
            self.counts.push(count)?;
        }
        Ok(())
    }
}

/// The dimensions and variables that a dataset had and a script defines.
#[derive(Drop)]
pub(crate) struct Shapes<'a> {
    dims: Counts<'a>,
    vars: Counts<'a>,
}

impl<'a> Shapes<'a> {
    /// None of them.
    pub(crate) fn new(alloc: Global) -> Self {
        Shapes {
            dims: Counts::new(alloc),
            vars: Counts::new(alloc),
        }
    }

    /// How many elements a variable has, where that is always the same.
    pub(crate) fn count(&self, var: &'a [u8]) -> Option<u64> {
        self.vars.of(var)
    }

    /// Adds those of the dataset's header, where it was opened, and of the script's lines.
    pub(crate) fn add_all(
        &mut self,
        header: Option<&'a Header>,
        lines: &[Line<'a>],
    ) -> Result<(), AllocError> {
        if let Some(header) = header {
            self.add_dims(header)?;
            self.add_vars(header)?;
        }
        self.add_lines(lines)
    }

    fn add_dims(&mut self, header: &'a Header) -> Result<(), AllocError> {
        for dim in header.dims.as_slice() {
            self.dims.add(dim.name.as_slice(), fixed(dim.len))?;
        }
        Ok(())
    }

    fn add_vars(&mut self, header: &'a Header) -> Result<(), AllocError> {
        for var in header.vars.as_slice() {
            self.vars.add(var.name.as_slice(), count_of(header, var))?;
        }
        Ok(())
    }

    fn add_lines(&mut self, lines: &[Line<'a>]) -> Result<(), AllocError> {
        for line in lines {
            self.add_line(*line)?;
        }
        Ok(())
    }

    fn add_line(&mut self, line: Line<'a>) -> Result<(), AllocError> {
        match Definition::of_line(line) {
            Some(Definition::Dim) => {
                let length = size_of_text(word_at(line.text, 2)).unwrap_or(0);
                self.dims.add(word_at(line.text, 1), fixed(length))
            }
            Some(Definition::Var) => {
                let count = self.count_over(word_at(line.text, 3));
                self.vars.add(word_at(line.text, 2), count)
            }
            _ => Ok(()),
        }
    }

    // How many elements a variable over these dimensions has.
    fn count_over(&self, dims: &'a [u8]) -> Option<u64> {
        let mut names = ListParts::new(between_brackets(dims)?);
        let mut count = 1u64;
        for _ in 0..dims.len() {
            let Some(name) = names.take() else {
                break;
            };
            count = count.checked_mul(self.dims.of(name)?)?;
        }
        Some(count)
    }
}

// A length, where it is not the 0 of the record dimension.
fn fixed(length: u64) -> Option<u64> {
    if length == 0 { None } else { Some(length) }
}

fn count_of(header: &Header, var: &Var) -> Option<u64> {
    let mut count = 1u64;
    for dim in var.dims.as_slice() {
        let length = header.dims.as_slice().get(*dim as usize)?.len;
        count = count.checked_mul(fixed(length)?)?;
    }
    Some(count)
}
