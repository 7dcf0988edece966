// The category of a message: which messages go before others on a channel.
ghost use Rattle.std.specs.Prelude.{◌≡◌, Some};
ghost use Rattle.cbsp.specs.Decoding.{decoded};
ghost use Rattle.elements.specs.Codes.{category_code, category_name, category_of};

use cbsp::code::UnknownCode;
use std::fmt;

#[derive(Clone, Copy, PartialEq, Eq, Debug)]
pub enum Category {
    HighPriority = 0,
    Background = 1,
    Normal = 2,
}

impl From<Category> for u8 {
    ghost from_gives = { λ v r. r ≡ category_code v };

    fn from(category: Category) -> u8 {
        category as u8
    }
}

impl TryFrom<u8> for Category {
    type Error = UnknownCode;

    ghost try_from_gives = { λ o r. r ≡ decoded category_of o };

    fn try_from(code: u8) -> Result<Category, UnknownCode> {
        match code {
            0 => Ok(Category::HighPriority),
            1 => Ok(Category::Background),
            2 => Ok(Category::Normal),
            _ => Err(UnknownCode(code)),
        }
    }
}

// Its name in the standard (3GPP TS 48.049, 8.2).
impl fmt::Display for Category {
    ghost output = { λ v. Some (category_name v) };

    fn fmt<W: fmt::Write>(&self, f: &mut fmt::Formatter<W>) -> fmt::Result {
        f.write_str(match self {
            Category::HighPriority => "high priority",
            Category::Background => "background",
            Category::Normal => "normal",
        })
    }
}
