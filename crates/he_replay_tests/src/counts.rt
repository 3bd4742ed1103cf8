// Numbers by place that threads change without a lock.

use he_addr::Memory;
use std::alloc::Global;
use std::sync::atomic::{AtomicU64, Ordering};

#[derive(Drop)]
pub struct Counts {
    numbers: Vec<AtomicU64>,
}

impl Counts {
    // `count` numbers, all 0.
    pub fn new(alloc: Global, count: usize) -> Result<Counts, Memory> {
        let mut numbers = Vec::new(alloc);
        for _ in 0..count {
            numbers.push(AtomicU64::new(0))?;
        }
        Ok(Counts { numbers })
    }

    // Adds 1 at the place.
    pub fn count(&self, place: usize) {
        if let Some(number) = self.numbers.get(place) {
            number.fetch_add(1, Ordering::SeqCst);
        }
    }

    // Sets the worker's bit at the place.
    pub fn mark(&self, place: usize, worker: usize) {
        if let Some(number) = self.numbers.get(place) {
            number.fetch_or(bit_of(worker), Ordering::SeqCst);
        }
    }

    pub fn is_marked(&self, place: usize, worker: usize) -> bool {
        self.at(place) & bit_of(worker) != 0
    }

    // The number at the place, 0 if there is none.
    pub fn at(&self, place: usize) -> u64 {
        match self.numbers.get(place) {
            Some(number) => number.load(Ordering::SeqCst),
            None => 0,
        }
    }

    pub fn sum(&self) -> u64 {
        let mut sum: u64 = 0;
        for number in &self.numbers {
            sum = sum.saturating_add(number.load(Ordering::SeqCst));
        }
        sum
    }

    pub fn are_all(&self, wanted: u64) -> bool {
        for number in &self.numbers {
            if number.load(Ordering::SeqCst) != wanted {
                return false;
            }
        }
        true
    }

    // Whether the numbers equal the others, of which there are as many.
    pub fn are(&self, others: &Counts) -> bool {
        for place in 0..self.numbers.len() {
            if self.at(place) != others.at(place) {
                return false;
            }
        }
        true
    }
}

// A bit for each of 64 workers.
fn bit_of(worker: usize) -> u64 {
    1 << (worker % 64) as u64
}
