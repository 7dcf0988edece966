// Writing, octet by octet.
ghost use Rattle.std.specs.Prelude.{◌≡◌, ◌+◌, ◌<◌, ◌≤◌, length};
ghost use Rattle.elements.specs.Octets.{one, two, three};
ghost use Rattle.elements.specs.Writes.{Room, Writes};

use crate::writer::Writer;

impl<'a> Writer<'a> {
    // At the start of the space.
    pub fn new(out: &'a mut [u8]) -> Writer<'a>
        ensures lender { result.out.ghost_name ≡ out.entry.ghost_name }
        ensures octets { result.out.now ≡ out.old }
        ensures front { result.at ≡ 0 }
    {
        Writer { out, at: 0 }
    }

    pub fn put_octet(&mut self, octet: u8)
        requires { Room (one octet) self.old }
        ensures { Writes (one octet) self.old self.new }
    {
        self.out[self.at] = octet;
        self.at += 1;
    }

    // Octets as they are.
    pub fn put_octets(&mut self, octets: &[u8])
        requires { Room octets.now self.old }
        ensures { Writes octets.now self.old self.new }
    {
        let end = self.at + octets.len();
        self.out[self.at..end].copy_from_slice(octets);
        self.at = end;
    }

    // A number of two octets, the most significant first.
    pub fn put_two(&mut self, value: u16)
        requires { Room (two value) self.old }
        ensures { Writes (two value) self.old self.new }
    {
        self.put_octets(&value.to_be_bytes());
    }

    // A number of three octets.
    pub fn put_three(&mut self, value: u32)
        requires room { Room (three value) self.old }
        requires small { value < 16777216 }
        ensures { Writes (three value) self.old self.new }
    {
        let [_, high, middle, low] = value.to_be_bytes();
        self.put_octets(&[high, middle, low]);
    }
}
