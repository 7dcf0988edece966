// What C code of a controller calls: framing and the check of a cell file. C has one number for each answer, so 0 and the
// refusals' numbers stand here for what the calls below answer with Option and Result.
#![tactic(auto)]

ghost use Rattle.std.specs.Prelude.{◌≡◌};
ghost use Rattle.cbsp.specs.Framing.{first_length};
ghost use Rattle.cbsp.specs.Refusals.{refusal_number};
ghost use Rattle.cells.specs.File.{checked_file};
ghost use Rattle.capi.specs.Numbers.{check_number, framing_number};

use cbsp::framing::first_length;
use cbsp::refusal::Refusal;
use cells::file::check;

fn number(refusal: Refusal) -> u32
    ensures { result ≡ refusal_number refusal }
{
    u32::from(u8::from(refusal))
}

// The length of the first message, 0 while it is not whole, the refusal's number where it is refused.
#[unsafe(no_mangle)]
pub extern "C" fn cbsp_first_length(octets: &[u8]) -> u32
    ensures { result ≡ framing_number (first_length octets.now) }
{
    match first_length(octets) {
        Ok(None) => 0,
        Ok(Some(length)) => length as u32,
        Err(refusal) => number(refusal),
    }
}

// 0 where the cell file is taken, else the refusal's number.
#[unsafe(no_mangle)]
pub extern "C" fn cbsp_check_cell_file(file: &[u8]) -> u32
    ensures { result ≡ check_number (checked_file file.now) }
{
    match check(file) {
        Ok(_) => 0,
        Err(refusal) => number(refusal),
    }
}
