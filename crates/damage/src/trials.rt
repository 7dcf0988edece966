// The trials: each message of a stream damaged in many ways, then random ones.
ghost use Rattle.std.specs.Prelude.{length};
ghost use Rattle.std.specs.Iterator.{at_most};

use crate::damages::Trial;
use crate::tally::Tally;
use cbsp::framing::first_length;
use std::alloc::{AllocError, Global};

const START: u64 = 20250101;

const DAMAGED: u32 = 4000;

const RANDOM: u32 = 60000;

// The whole messages at the front of a stream. Not the parts of inspect: a program is no library, and nothing
// is told here of what is left.
#[derive(Drop)]
struct Messages<'a>(&'a [u8]);

impl<'a> Iterator for Messages<'a> {
    type Item = &'a [u8];

    ghost remaining = { λ s. at_most (length s.0.now) };

    fn next(&mut self) -> Option<&'a [u8]> {
        let length = first_length(self.0).ok().flatten()?;
        let (message, rest) = self.0.split_at(length);
        self.0 = rest;
        Some(message)
    }
}

fn try_message(trial: &mut Trial, tally: &mut Tally, message: &[u8]) -> Result<(), AllocError> {
    tally.count(message);
    for _ in 0..DAMAGED {
        trial.damage_message(message)?;
        tally.count(trial.octets());
    }
    Ok(())
}

fn try_random(trial: &mut Trial, tally: &mut Tally) -> Result<(), AllocError> {
    for _ in 0..RANDOM {
        trial.random_message()?;
        tally.count(trial.octets());
    }
    Ok(())
}

pub fn run(heap: Global, stream: &[u8]) -> Result<Tally, AllocError> {
    let mut trial = Trial::new(heap, START);
    let mut tally = Tally::default();
    for message in Messages(stream) {
        try_message(&mut trial, &mut tally, message)?;
    }
    try_random(&mut trial, &mut tally)?;
    Ok(tally)
}
