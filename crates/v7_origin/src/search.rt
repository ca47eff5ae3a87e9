//! The search for objects that follow each other: depth first from the front of the program, or from its back.
use crate::candidates::{Candidate, Trial};
use crate::known::{Known, Placed, Row};
use std::alloc::{AllocError, Global};

/// How often a search goes on or back, at most.
const STEPS: u32 = 200_000;

/// As many words are compared in the time in which an object is found not to be next.
const CANDIDATE_WORK: usize = 16;

/// A search from the front, or from the back, between two places: an address of text and a byte of data.
#[derive(Drop)]
pub(crate) struct Search<'a> {
    alloc: Global,
    trial: &'a Trial<'a>,
    /// The numbers of the candidates that are tried, in this order.
    order: Vec<usize>,
    is_backward: bool,
    from: (usize, usize),
    to: (usize, usize),
    pub(crate) known: Known,
    /// The objects placed, each with its place in the order.
    placed: Vec<(usize, Placed)>,
    /// How many bytes the longest way has, and its objects.
    way: usize,
    pub(crate) longest: Vec<Row>,
    /// The place in the order that is tried next.
    next: usize,
}

/// The candidates with words, the one with the longest text first.
fn order_of(trial: &Trial<'_>) -> Result<Vec<usize>, AllocError> {
    let mut order = Vec::new(trial.alloc);
    for (number, candidate) in trial.all.iter().enumerate() {
        if !candidate.is_empty() {
            order.push((65535usize.saturating_sub(candidate.text_size()), number))?;
        }
    }
    order.sort()?;
    let mut numbers = Vec::new(trial.alloc);
    for (_, number) in order {
        numbers.push(number)?;
    }
    Ok(numbers)
}

impl<'a> Search<'a> {
    /// A search from a place to another one; it goes back if that comes first.
    pub(crate) fn new(
        trial: &'a Trial<'a>,
        known: Known,
        from: (usize, usize),
        to: (usize, usize),
    ) -> Result<Search<'a>, AllocError> {
        Ok(Search {
            alloc: trial.alloc,
            trial,
            order: order_of(trial)?,
            is_backward: from.0 > to.0 || from.1 > to.1,
            from,
            to,
            known,
            placed: Vec::new(trial.alloc),
            way: 0,
            longest: Vec::new(trial.alloc),
            next: 0,
        })
    }

    /// How far the search is.
    fn reached(&self) -> (usize, usize) {
        match self.placed.last() {
            None => self.from,
            Some((_, placed)) if self.is_backward => (
                usize::from(placed.row.text),
                usize::from(placed.row.place.unwrap_or(0)),
            ),
            Some((_, placed)) => self.trial.end_of(&placed.row),
        }
    }

    /// Where an object would be that comes next, if there is room for it and its text may be there.
    fn next_at(&self, candidate: &Candidate) -> Option<(u16, u16)> {
        let (text, data) = self.reached();
        let (text_size, data_size) = (candidate.text_size(), candidate.data_size());
        let at = if self.is_backward {
            (text.checked_sub(text_size)?, data.checked_sub(data_size)?)
        } else {
            (text, data)
        };
        let (low, high) = if self.is_backward {
            (self.to, self.from)
        } else {
            (self.from, self.to)
        };
        let is_inside = low.0 <= at.0
            && low.1 <= at.1
            && at.0.saturating_add(text_size) <= high.0
            && at.1.saturating_add(data_size) <= high.1;
        let (text, place) = (u16::try_from(at.0).ok()?, u16::try_from(at.1).ok()?);
        (is_inside && (text_size == 0 || candidate.may_be_at(text))).then_some((text, place))
    }

    /// Places the next object, the first of the order that agrees.
    fn go_on(&mut self) -> Result<bool, AllocError> {
        for rank in self.next..self.order.len() {
            self.known.charge(CANDIDATE_WORK);
            let number = self.order.get(rank).copied().unwrap_or(usize::MAX);
            let Some(candidate) = self.trial.all.get(number) else {
                continue;
            };
            let Some((text, place)) = self.next_at(candidate) else {
                continue;
            };
            let placed = self.known.place(self.trial, number, text, Some(place))?;
            if let Some(placed) = placed {
                self.placed.push((rank, placed))?;
                self.next = 0;
                return Ok(true);
            }
        }
        Ok(false)
    }

    /// Takes back the last object, so that the one after it in the order is next.
    fn go_back(&mut self) -> bool {
        let Some((rank, placed)) = self.placed.pop() else {
            return false;
        };
        self.known.take_back(&placed);
        self.next = rank.saturating_add(1);
        true
    }

    /// The objects placed, in the order of their addresses.
    pub(crate) fn rows(&self) -> Result<Vec<Row>, AllocError> {
        let mut rows = Vec::new(self.alloc);
        for (_, placed) in &self.placed {
            rows.push(placed.row)?;
        }
        if self.is_backward {
            rows.reverse();
        }
        Ok(rows)
    }

    /// Keeps the rows, if no way was longer.
    fn keep_longest(&mut self) -> Result<(), AllocError> {
        let (text, data) = self.reached();
        let way = text
            .abs_diff(self.from.0)
            .saturating_add(data.abs_diff(self.from.1));
        if way > self.way {
            self.way = way;
            self.longest = self.rows()?;
        }
        Ok(())
    }

    /// Searches on for a way to the end. `false`: there is none, or the search takes too long.
    pub(crate) fn run(&mut self) -> Result<bool, AllocError> {
        for _ in 0..STEPS {
            if self.known.left == 0 {
                return Ok(false);
            }
            if !self.go_on()? {
                if !self.go_back() {
                    return Ok(false);
                }
                continue;
            }
            self.keep_longest()?;
            if self.reached() == self.to {
                return Ok(true);
            }
        }
        Ok(false)
    }
}
