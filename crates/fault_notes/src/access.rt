// The calls that name a region of a variable, by their words.
ghost use Rattle.std.specs.Prelude.{◌≤◌};

use crate::cursor::word_at;
use crate::slot::Slot;
use crate::table::beside;
use nc_base::Form;
use script_values::regions::form_of_text;
use script_words::numbers::size_of_text;

/// A put, a get or a post.
#[derive(Clone, Copy)]
pub(crate) struct Access {
    pub form: Form,
    pub is_post: bool,
    pub has_values: bool,
}

// What a call does, by the first bytes of its word.
#[derive(Clone, Copy)]
enum Kind {
    Put,
    Get,
    PostedPut,
    PostedGet,
}

const KINDS: [(&[u8], Kind); 5] = [
    (b"put_", Kind::Put),
    (b"get_", Kind::Get),
    (b"iput", Kind::PostedPut),
    (b"bput", Kind::PostedPut),
    (b"iget", Kind::PostedGet),
];

fn form_of(kind: Kind, rest: &[u8]) -> Option<Form> {
    match kind {
        Kind::Put | Kind::Get => {
            form_of_text(rest.strip_suffix(b"_all".as_slice()).unwrap_or(rest))
        }
        Kind::PostedPut | Kind::PostedGet => form_of_text(rest.strip_prefix(b"_".as_slice())?),
    }
}

impl Access {
    /// The access of a call's word, where it is one.
    pub(crate) fn of_word(word: &[u8]) -> Option<Access> {
        let (first, rest) = word.split_at_checked(4)?;
        let kind = beside(first, &KINDS)?;
        Some(Access {
            form: form_of(kind, rest)?,
            is_post: matches!(kind, Kind::PostedPut | Kind::PostedGet),
            has_values: matches!(kind, Kind::Put | Kind::PostedPut),
        })
    }

    /// How many ids stand behind the call's word, before the name of the variable.
    pub(crate) fn ids(&self) -> usize
        ensures { result ≤ 1 }
    {
        if self.is_post { 1 } else { 0 }
    }

    /// What the word behind the call's is for, at this place from 0.
    pub(crate) fn slot(&self, line: &[u8], place: usize) -> Slot {
        let ids = self.ids();
        if place < ids {
            Slot::Id
        } else if place == ids {
            Slot::Name
        } else {
            self.slot_behind(word_at(line, 3 + ids), place - ids - 1)
        }
    }

    // The same from the region on, by its first word.
    fn slot_behind(&self, first: &[u8], place: usize) -> Slot {
        match region_slot(self.form, first, place) {
            Some(slot) => slot,
            None if self.has_values => Slot::Value,
            None => Slot::Nothing,
        }
    }
}

// The lists of a region, in order.
const LISTS: [Slot; 4] = [Slot::Start, Slot::Count, Slot::Stride, Slot::Imap];

// What a word of a region is for, at this place from 0; none behind it.
fn region_slot(form: Form, first: &[u8], place: usize) -> Option<Slot> {
    let lists = match form {
        Form::Varn => return varn_slot(first, place),
        Form::Var => 0,
        Form::Var1 => 1,
        Form::Vara => 2,
        Form::Vars => 3,
        Form::Varm => 4,
    };
    if place < lists {
        LISTS.get(place).copied()
    } else {
        None
    }
}

// The same for many regions: their number, and a START and a COUNT of each.
fn varn_slot(parts: &[u8], place: usize) -> Option<Slot> {
    if place == 0 {
        return Some(Slot::Parts);
    }
    if place as u64 > size_of_text(parts)?.saturating_mul(2) {
        None
    } else if place % 2 == 1 {
        Some(Slot::Start)
    } else {
        Some(Slot::Count)
    }
}
