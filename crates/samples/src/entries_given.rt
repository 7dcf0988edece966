// Entries of lists.
use elements::cause::Cause;
use lists::cell::CellIdentity;
use lists::kinds::{CellEntry, CompletedEntry, FailedEntry, Info};
use std::array;

pub const TWO_CELLS: [CellEntry; 2] = [
    CellEntry {
        cell: CellIdentity::LacCi(0x0101, 0x0001),
    },
    CellEntry {
        cell: CellIdentity::LacCi(0x0101, 0x0002),
    },
];

pub const ONE_CI: [CellEntry; 1] = [CellEntry {
    cell: CellIdentity::Ci(0x0001),
}];

pub const TWO_AREAS: [CellEntry; 2] = [
    CellEntry {
        cell: CellIdentity::Lac(0x0101),
    },
    CellEntry {
        cell: CellIdentity::Lac(0xfffe),
    },
];

pub const COUNTS: [CompletedEntry; 3] = [
    CompletedEntry {
        cell: CellIdentity::LacCi(0x0101, 0x0001),
        count: 7,
        info: Info::Exact,
    },
    CompletedEntry {
        cell: CellIdentity::LacCi(0x0101, 0x0002),
        count: 65535,
        info: Info::Overflow,
    },
    CompletedEntry {
        cell: CellIdentity::LacCi(0x0102, 0x0003),
        count: 0,
        info: Info::Unknown,
    },
];

pub const COUNT_BY_CI: [CompletedEntry; 1] = [CompletedEntry {
    cell: CellIdentity::Ci(0x0002),
    count: 258,
    info: Info::Exact,
}];

pub const FAILURES: [FailedEntry; 2] = [
    FailedEntry {
        cell: CellIdentity::LacCi(0x0101, 0x0001),
        cause: Cause::ExtendedChannelNotSupported,
    },
    FailedEntry {
        cell: CellIdentity::LacCi(0x0101, 0x0002),
        cause: Cause::MessageReferenceNotIdentified,
    },
];

pub const FAILURES_OF_ALL_FORMS: [FailedEntry; 4] = [
    FailedEntry {
        cell: CellIdentity::LacCi(0x0101, 0x0001),
        cause: Cause::CellBroadcastNotOperational,
    },
    FailedEntry {
        cell: CellIdentity::Ci(0x0009),
        cause: Cause::CellIdentityNotValid,
    },
    FailedEntry {
        cell: CellIdentity::Lac(0x0202),
        cause: Cause::LaiOrLacNotValid,
    },
    FailedEntry {
        cell: CellIdentity::All,
        cause: Cause::UnspecifiedError,
    },
];

// As many cells as a controller has at most, in one location area.
pub fn many_cells() -> [CellEntry; 64] {
    array::from_fn(|number| CellEntry {
        cell: CellIdentity::LacCi(0x0101, number as u16 + 1),
    })
}
