// Requests that nobody waited for.
use crate::fill::{Value, fill};
use memchr::memmem::find;
use std::alloc::AllocError;

/// The requests of a run that nobody waited for or cancelled.
#[derive(Clone, Copy)]
pub struct Pending {
    pub requests: u64,
    /// How many ranks have some.
    pub ranks: u32,
    /// The first of these ranks.
    pub first: u32,
}

// What begins the line that tells them, rank after rank.
const PENDING: &[u8] = b"\npending ";

// What begins the layout, in which any name may stand.
const LAYOUT: &[u8] = b"\n// file format";

/// The requests that the text of a run tells, where there are some.
pub(crate) fn pending_in(text: &[u8]) -> Option<Pending> {
    let mut rest = answers_in(text);
    let mut pending = Pending {
        requests: 0,
        ranks: 0,
        first: 0,
    };
    for rank in 0u32..64 {
        let Some(at) = find(rest, PENDING) else {
            break;
        };
        rest = rest.get(at.saturating_add(PENDING.len())..).unwrap_or(&[]);
        pending = pending.with(rank, leading_number(rest));
    }
    if pending.requests > 0 {
        Some(pending)
    } else {
        None
    }
}

// What stands before the layout.
fn answers_in(text: &[u8]) -> &[u8] {
    let end = find(text, LAYOUT).unwrap_or(text.len());
    text.get(..end).unwrap_or(text)
}

fn leading_number(text: &[u8]) -> u64 {
    let mut number = 0u64;
    for digit in text {
        if !digit.is_ascii_digit() {
            break;
        }
        number = number
            .saturating_mul(10)
            .saturating_add(u64::from(digit.wrapping_sub(b'0')));
    }
    number
}

impl Pending {
    // With the requests of one more rank.
    fn with(self, rank: u32, requests: u64) -> Pending {
        if requests == 0 {
            return self;
        }
        Pending {
            requests: self.requests.saturating_add(requests),
            ranks: self.ranks.saturating_add(1),
            first: if self.ranks == 0 { rank } else { self.first },
        }
    }
}

/// What is said of them.
pub(crate) fn push_pending(out: &mut String, pending: Pending) -> Result<(), AllocError> {
    let undone = if pending.requests == 1 {
        "request, so it was not done"
    } else {
        "requests, so they were not done"
    };
    if pending.ranks == 1 {
        fill(
            out,
            "rank {} never waited for {} {}",
            &[
                Value::Number(u64::from(pending.first)),
                Value::Number(pending.requests),
                Value::Text(undone),
            ],
        )
    } else {
        fill(
            out,
            "{} ranks, the first of them rank {}, never waited for {} {}",
            &[
                Value::Number(u64::from(pending.ranks)),
                Value::Number(u64::from(pending.first)),
                Value::Number(pending.requests),
                Value::Text(undone),
            ],
        )
    }
}
