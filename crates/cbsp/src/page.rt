// The page parameter of a page on the air.
ghost use Rattle.std.specs.Prelude.{◌≡◌};
ghost use Rattle.cbsp.specs.PageParameter.{PageExamples, Parts, page_parameter};

// The page parameter of a page with that number out of a total.
pub fn page_parameter(number: u8, total: u8) -> u8
    ensures value { result ≡ page_parameter number total }
    ensures parts { Parts number total result }
    ensures examples { PageExamples }
{
    (number & 0x0f) << 4 | total & 0x0f
}
