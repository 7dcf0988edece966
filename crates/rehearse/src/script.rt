// The lines of a script.
use elements::recovery::Recovery;
use std::fmt;

// The site over which the script is rehearsed.
#[derive(Clone, Copy, PartialEq, Eq, Debug)]
pub enum SiteKind {
    Drill,
    Frame,
}

// What a line asks for. A link is named by the number of its opening, 0 where no opening has such a number; octets stand as text.
// Clone and Copy alone: orders are read and carried out, and never compared.
#[derive(Clone, Copy)]
pub enum Order<'a> {
    Cells(&'a str),
    Site(SiteKind),
    Open,
    Announce(u16),
    Message {
        link: u16,
        octets: &'a str,
    },
    Periods(u64),
    Lose {
        link: u16,
        cell: usize,
    },
    Return {
        link: u16,
        cell: usize,
        recovery: Recovery,
    },
    Shut(u16),
    Overdue,
    Figures,
}

// Why a line cannot be understood.
#[derive(Clone, Copy, PartialEq, Eq, Debug)]
pub enum Unclear {
    NoText,
    UnknownWord,
    NoNumber,
    WordMissing,
    WordsLeft,
    UnknownSite,
    UnknownRecovery,
    NoOctets,
    TooLate,
}

impl fmt::Display for Unclear {
    fn fmt<W: fmt::Write>(&self, f: &mut fmt::Formatter<W>) -> fmt::Result {
        f.write_str(match self {
            Unclear::NoText => "this is no text",
            Unclear::UnknownWord => "the first word is none that is known",
            Unclear::NoNumber => "a number is expected here",
            Unclear::WordMissing => "a word is missing at the end",
            Unclear::WordsLeft => "there are more words than are understood",
            Unclear::UnknownSite => "a site is drill or frame",
            Unclear::UnknownRecovery => "a cell returns available or lost",
            Unclear::NoOctets => "octets are two hexadecimal digits each",
            Unclear::TooLate => "cells and site come before all else",
        })
    }
}

// What is left of a line, word by word.
#[derive(Clone, Copy)]
struct Words<'a> {
    rest: &'a str,
}

impl<'a> Words<'a> {
    fn next(&mut self) -> Option<&'a str> {
        let rest = self.rest.trim_start();
        if rest.is_empty() {
            return None;
        }
        let (word, left) = rest
            .split_once(|letter: char| letter.is_ascii_whitespace())
            .unwrap_or((rest, ""));
        self.rest = left;
        Some(word)
    }

    fn word(&mut self) -> Result<&'a str, Unclear> {
        self.next().ok_or(Unclear::WordMissing)
    }

    fn link(&mut self) -> Result<u16, Unclear> {
        let number: u64 = self.word()?.parse().map_err(|_| Unclear::NoNumber)?;
        Ok(u16::try_from(number).unwrap_or(0))
    }

    fn cell(&mut self) -> Result<usize, Unclear> {
        self.word()?.parse().map_err(|_| Unclear::NoNumber)
    }

    fn count(&mut self) -> Result<u64, Unclear> {
        self.word()?.parse().map_err(|_| Unclear::NoNumber)
    }

    fn site(&mut self) -> Result<SiteKind, Unclear> {
        match self.word()? {
            "drill" => Ok(SiteKind::Drill),
            "frame" => Ok(SiteKind::Frame),
            _ => Err(Unclear::UnknownSite),
        }
    }

    fn recovery(&mut self) -> Result<Recovery, Unclear> {
        match self.word()? {
            "available" => Ok(Recovery::Available),
            "lost" => Ok(Recovery::Lost),
            _ => Err(Unclear::UnknownRecovery),
        }
    }

    // All that is left, where it is octets.
    fn octets(&mut self) -> Result<&'a str, Unclear> {
        let rest = self.rest.trim();
        self.rest = "";
        if !rest.split_ascii_whitespace().all(|word| is_octets(word)) {
            return Err(Unclear::NoOctets);
        }
        Ok(rest)
    }
}

fn is_octets(word: &str) -> bool {
    word.len() % 2 == 0 && word.bytes().all(|digit| digit.is_ascii_hexdigit())
}

// What a line says before its comment, which begins with #.
pub fn without_comment(line: &str) -> &str {
    line.split_once('#').map_or(line, |(said, _)| said)
}

// What the line asks for, nothing where it says nothing.
pub fn read_line(line: &str) -> Result<Option<Order<'_>>, Unclear> {
    let mut words = Words {
        rest: without_comment(line),
    };
    let Some(first) = words.next() else {
        return Ok(None);
    };
    let order = read_order(first, &mut words)?;
    if words.next().is_some() {
        return Err(Unclear::WordsLeft);
    }
    Ok(Some(order))
}

fn read_order<'a>(first: &str, words: &mut Words<'a>) -> Result<Order<'a>, Unclear> {
    match first {
        "cells" => Ok(Order::Cells(words.octets()?)),
        "site" => Ok(Order::Site(words.site()?)),
        "open" => Ok(Order::Open),
        "announce" => Ok(Order::Announce(words.link()?)),
        "message" => {
            let link = words.link()?;
            let octets = words.octets()?;
            Ok(Order::Message { link, octets })
        }
        "periods" => Ok(Order::Periods(words.count()?)),
        "lose" => {
            let link = words.link()?;
            let cell = words.cell()?;
            Ok(Order::Lose { link, cell })
        }
        "return" => {
            let link = words.link()?;
            let cell = words.cell()?;
            let recovery = words.recovery()?;
            Ok(Order::Return {
                link,
                cell,
                recovery,
            })
        }
        "shut" => Ok(Order::Shut(words.link()?)),
        "overdue" => Ok(Order::Overdue),
        "figures" => Ok(Order::Figures),
        _ => Err(Unclear::UnknownWord),
    }
}

impl Order<'_> {
    // How many words of the line stand before its result.
    pub fn own_words(self) -> usize {
        match self {
            Order::Cells(_) => 1,
            Order::Message { .. } => 2,
            _ => usize::MAX,
        }
    }
}
