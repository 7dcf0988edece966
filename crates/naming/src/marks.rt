// Marks of the cells that are named already, in octets that the host lends.
ghost use Rattle.std.specs.Prelude.{◌≡◌, ◌+◌, length, replicate, if◌then◌else◌, slice_set};
ghost use Rattle.naming.specs.Marks.{clear_marks, is_clear};

// Clears the marks when it goes.
pub struct Marks<'a> {
    pub octets: &'a mut [u8],
}

impl Drop for Marks<'_> {
    fn drop(self)
        ensures { self.exit.0.now ≡ replicate (length self.entry.octets.now) 0 }
    {
        self.octets.fill(0);
        let Marks { octets: _ } = self;
    }
}

// Whether the cell was not named before; it is now. A bool, as the insert of a set answers one: a cell that
// was named before is no error.
pub fn mark(octets: &mut [u8], cell: usize) -> bool
    ensures value { result ≡ is_clear octets.old cell }
    ensures fewer { clear_marks octets.new + (if result then 1 else 0) ≡ clear_marks octets.old }
    ensures after { octets.new ≡ (if result then slice_set octets.old cell 1 else octets.old) }
{
    // by the index: after `get_mut` under a guard a proof knows nothing of the other marks
    if cell >= octets.len() || octets[cell] != 0 {
        return false;
    }
    octets[cell] = 1;
    true
}
