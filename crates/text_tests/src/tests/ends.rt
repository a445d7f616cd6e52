// Ends of runs, from tables.
use nc_base::{
    Answer, AnswerList, AnswerTable, BitList, Code, Item, ItemList, Mark, MarkList, NumberList,
    Pair, RunEnd, SizeList, Values,
};
use std::alloc::Global;
use std::process::Abort;
use test_fixtures::NO_MEMORY;

/// What was got.
#[derive(Clone, Copy)]
pub enum Got {
    Nothing,
    Numbers(&'static [i128]),
    Bits(&'static [u64]),
}

/// What a call is answered.
pub struct Answered {
    pub code: Code,
    pub pair: Option<Pair>,
    pub number: Option<u64>,
    pub values: Got,
    pub items: &'static [(u32, Code, Got)],
}

pub const PLAIN: Answered = Answered {
    code: Code::Ok,
    pair: None,
    number: None,
    values: Got::Nothing,
    items: &[],
};

fn values_of(rt: &impl Abort, alloc: Global, got: Got) -> Option<Values> {
    match got {
        Got::Nothing => None,
        Got::Numbers(list) => {
            let list = Vec::from_slice(alloc, list).expect(rt, NO_MEMORY);
            Some(Values::Numbers(NumberList::from_vec(list)))
        }
        Got::Bits(list) => {
            let list = Vec::from_slice(alloc, list).expect(rt, NO_MEMORY);
            Some(Values::Bits(BitList::from_vec(list)))
        }
    }
}

fn items_of(rt: &impl Abort, alloc: Global, told: &[(u32, Code, Got)]) -> ItemList {
    let mut items = ItemList::new(alloc);
    for (id, code, got) in told {
        let item = Item {
            id: *id,
            code: *code,
            values: values_of(rt, alloc, *got),
        };
        items.push(item).expect(rt, NO_MEMORY);
    }
    items
}

fn answers_of(rt: &impl Abort, alloc: Global, told: &[Answered]) -> AnswerList {
    let mut answers = AnswerList::new(alloc);
    for call in told {
        let answer = Answer {
            code: call.code,
            pair: call.pair,
            number: call.number,
            values: values_of(rt, alloc, call.values),
            items: items_of(rt, alloc, call.items),
        };
        answers.push(answer).expect(rt, NO_MEMORY);
    }
    answers
}

/// The end of a run by its order, the answers of its ranks, and how much of each is pending.
pub fn end_of(
    rt: &impl Abort,
    alloc: Global,
    order: &[Mark],
    told: &[&[Answered]],
    pending: &[u64],
) -> RunEnd {
    let mut answers = AnswerTable::new(alloc);
    for own in told {
        answers
            .push(answers_of(rt, alloc, own))
            .expect(rt, NO_MEMORY);
    }
    RunEnd {
        order: MarkList::from_slice(alloc, order).expect(rt, NO_MEMORY),
        answers,
        pending: SizeList::from_slice(alloc, pending).expect(rt, NO_MEMORY),
        fault: None,
    }
}
