use domain::Interval;
use std::alloc::{AllocError, Global};

/// Steps at which range ends stop that still move: for each row those of the rows that it shares them with.
#[derive(Drop)]
pub struct Ladders {
    // For each row one at or before it that shares its steps: the row itself, if that is the first of them.
    links: Vec<usize>,
    // Each with the row that it was added to, and from `finish` on with the first of those that share it, ascending.
    steps: Vec<(usize, i64)>,
    refused: Option<AllocError>,
}

impl Ladders {
    /// Ladders without steps, of rows of which each has its own.
    ///
    /// # Errors
    /// No memory.
    pub fn new(alloc: Global, rows: usize) -> Result<Ladders, AllocError> {
        Ok(Ladders {
            links: (0..rows).collect(alloc)?,
            steps: Vec::new(alloc),
            refused: None,
        })
    }

    /// Two rows share their steps from here on. A row that isn't there shares none.
    pub fn join(&mut self, row: usize, other: usize) {
        let one = self.head(row);
        let another = self.head(other);
        if let Some(link) = self.links.get_mut(one.max(another)) {
            *link = one.min(another);
        }
    }

    /// A step of a row, if it is a number that facts have. Where memory runs out, `finish` tells it.
    pub fn add(&mut self, row: usize, step: i64) {
        if !Interval::INTEGER.has(step) || self.refused.is_some() {
            return;
        }
        if let Err(error) = self.steps.push((row, step)) {
            self.refused = Some(error.into());
        }
    }

    /// Gathers the steps that rows share. To be called once, behind all that is joined and added, and before a step is
    /// asked for.
    ///
    /// # Errors
    /// There was no memory for a step.
    pub fn finish(&mut self) -> Result<(), AllocError> {
        if let Some(error) = self.refused {
            return Err(error);
        }
        for row in 0..self.links.len() {
            self.shorten(row);
        }
        for step in self.steps.iter_mut() {
            step.0 = linked(&self.links, step.0);
        }
        self.steps.sort_unstable();
        self.steps.dedup();
        Ok(())
    }

    /// The least step of a row that is a number or above it.
    pub fn above(&self, row: usize, number: i64) -> Option<i64> {
        let head = linked(&self.links, row);
        let place = self.steps.partition_point(|step| *step < (head, number));
        self.step_at(head, place)
    }

    /// The greatest step of a row that is a number or below it.
    pub fn below(&self, row: usize, number: i64) -> Option<i64> {
        let head = linked(&self.links, row);
        let behind = self.steps.partition_point(|step| *step <= (head, number));
        self.step_at(head, behind.checked_sub(1)?)
    }
}

impl Ladders {
    // The first of the rows that share their steps with a row, as far as they are joined. The way to it gets shorter.
    fn head(&mut self, row: usize) -> usize {
        let mut head = row;
        for _ in 0..self.links.len() {
            self.shorten(head);
            let next = linked(&self.links, head);
            if next == head {
                return head;
            }
            head = next;
        }
        head
    }

    // Links a row to the row that its own is linked to.
    fn shorten(&mut self, row: usize) {
        let next = linked(&self.links, linked(&self.links, row));
        if let Some(link) = self.links.get_mut(row) {
            *link = next;
        }
    }

    // The step at a place, if it is one of this row.
    fn step_at(&self, head: usize, place: usize) -> Option<i64> {
        match self.steps.get(place) {
            Some((row, step)) if *row == head => Some(*step),
            _ => None,
        }
    }
}

// The row that a row is linked to.
fn linked(links: &[usize], row: usize) -> usize {
    links.get(row).copied().unwrap_or(row)
}
