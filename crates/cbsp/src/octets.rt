// Numbers of two octets.
ghost use Rattle.std.specs.Prelude.{◌≡◌, ◌+◌, ◌≤◌, length};
ghost use Rattle.cbsp.specs.Octets.{two_at};

// The number that two octets are, the most significant first.
pub fn two_at(octets: &[u8], at: usize) -> u16
    requires { at + 2 ≤ length octets.now }
    ensures { result ≡ two_at octets.now at }
{
    u16::from_be_bytes([octets[at], octets[at + 1]])
}
