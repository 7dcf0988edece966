// The discriminator of an entry: in which way it names cells.
ghost use Rattle.std.specs.Prelude.{◌≡◌, ◌≤◌};
ghost use Rattle.cbsp.specs.Decoding.{decoded};
ghost use Rattle.lists.specs.Cells.{cell_width};
ghost use Rattle.lists.specs.Forms.{form_code, form_from};

use cbsp::code::UnknownCode;

#[derive(Clone, Copy, PartialEq, Eq, Debug)]
pub enum Form {
    LacCi = 1,
    Ci = 2,
    Lac = 5,
    All = 6,
}

impl Form {
    // How many octets stand for an identity under it.
    pub fn width(self) -> usize
        ensures value { result ≡ cell_width (form_code self) }
        ensures small { result ≤ 4 }
    {
        match self {
            Form::LacCi => 4,
            Form::Ci | Form::Lac => 2,
            Form::All => 1,
        }
    }
}

impl From<Form> for u8 {
    ghost from_gives = { λ v r. r ≡ form_code v };

    fn from(form: Form) -> u8 {
        form as u8
    }
}

impl TryFrom<u8> for Form {
    type Error = UnknownCode;

    ghost try_from_gives = { λ o r. r ≡ decoded form_from o };

    fn try_from(code: u8) -> Result<Form, UnknownCode> {
        match code {
            1 => Ok(Form::LacCi),
            2 => Ok(Form::Ci),
            5 => Ok(Form::Lac),
            6 => Ok(Form::All),
            _ => Err(UnknownCode(code)),
        }
    }
}
