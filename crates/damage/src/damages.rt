// Ways in which octets are damaged.
use crate::numbers::Numbers;
use std::alloc::{AllocError, Global};

// What is done at a place.
#[derive(Clone, Copy, PartialEq, Eq, Debug)]
enum Damage {
    Change,
    // A small change, which often gives another value in range.
    Raise,
    Remove,
    Insert,
    Cut,
}

const DAMAGES: [Damage; 6] = [
    Damage::Change,
    Damage::Change,
    Damage::Raise,
    Damage::Remove,
    Damage::Insert,
    Damage::Cut,
];

// Writes the length of what follows the header into it.
fn mend_length(octets: &mut [u8]) {
    if octets.len() < 4 {
        return;
    }
    if let Ok(body) = u16::try_from(octets.len() - 4) {
        let [upper, lower] = body.to_be_bytes();
        octets[1..4].copy_from_slice(&[0, upper, lower]);
    }
}

// Octets to be tried, and the numbers that say how they are made.
#[derive(Drop)]
pub struct Trial {
    numbers: Numbers,
    octets: Vec<u8>,
}

impl Trial {
    pub fn new(heap: Global, start: u64) -> Trial {
        Trial {
            numbers: Numbers::new(start),
            octets: Vec::new(heap),
        }
    }

    pub fn octets(&self) -> &[u8] {
        self.octets.as_slice()
    }

    // Mostly the header's length is mended after a damage.
    fn mend_mostly(&mut self) {
        if self.numbers.draw() % 8 > 0 {
            mend_length(self.octets.as_mut_slice());
        }
    }

    // One damage of some kind.
    fn damage(&mut self) -> Result<(), AllocError> {
        let damage = DAMAGES[self.numbers.draw() % DAMAGES.len()];
        if let Some(place) = self.numbers.place(self.octets.len()) {
            match damage {
                Damage::Change => self.octets[place] = self.numbers.octet(),
                Damage::Raise => self.octets[place] = self.octets[place].wrapping_add(1),
                Damage::Remove => {
                    self.octets.remove(place);
                }
                Damage::Insert => self.octets.insert(place, self.numbers.octet())?,
                Damage::Cut => self.octets.truncate(place),
            }
        }
        self.mend_mostly();
        Ok(())
    }

    // A message with one to three damages.
    pub fn damage_message(&mut self, message: &[u8]) -> Result<(), AllocError> {
        self.octets.clear();
        self.octets.extend_from_slice(message)?;
        for _ in 0..=self.numbers.draw() % 3 {
            self.damage()?;
        }
        Ok(())
    }

    // Random octets behind a header of a random type.
    pub fn random_message(&mut self) -> Result<(), AllocError> {
        self.octets.clear();
        for _ in 0..self.numbers.draw() % 24 + 4 {
            self.octets.push(self.numbers.octet() % 0x19)?;
        }
        self.mend_mostly();
        Ok(())
    }
}
