// The code of a serial number.
ghost use Rattle.std.specs.Prelude.{◌≡◌};
ghost use Rattle.cbsp.specs.Serials.{same_code, serial_code};

// The twelve most significant bits of a serial number.
pub fn serial_code(serial: u16) -> u16
    ensures { result ≡ serial_code serial }
{
    serial >> 4
}

// Whether two serial numbers have one code. By the codes: two serial numbers with one code are the same here,
// and nowhere else.
pub fn same_code(a: u16, b: u16) -> bool
    ensures { result ≡ same_code a b }
{
    serial_code(a) == serial_code(b)
}
