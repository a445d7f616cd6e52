// What the ranks of a plan have at its end.
ghost use Rattle.std.specs.Prelude.{◌≡◌, map, IfOk};
ghost use Rattle.serial_spec.specs.RankMachine as machine;
ghost use Rattle.run_plan.specs.Runs.{greatest_known, item_without_values, without_values};

use nc_base::{Answer, AnswerList, AnswerTable, Item, ItemList, Memory, SizeList};
use std::alloc::Global;
use turn_run::Runner;

/// The greatest record count that a rank knows.
pub(crate) fn greatest_known(runners: &[Runner]) -> u64
    ensures { result ≡ greatest_known runners.now }
{
    let mut known: u64 = 0;
    for runner in runners {
        known = known.max(runner.rank.known());
    }
    known
}

/// How many requests each rank leaves.
#[tactic(auto, using(list_laws::proofs::Maps::map_more))]
pub(crate) fn pending_of(alloc: Global, runners: &[Runner]) -> Result<SizeList, Memory>
    ensures { IfOk result (λ sizes. sizes ≡ map (λ runner. machine.pending runner.rank.state) runners.now) }
{
    let mut sizes = SizeList::new(alloc);
    for runner in runners {
        sizes.push(runner.rank.pending())?;
    }
    Ok(sizes)
}

/// Each rank's answers, without the values that gets gave.
#[tactic(auto, using(list_laws::proofs::Maps::map_more))]
pub(crate) fn answers_of(alloc: Global, runners: &[Runner]) -> Result<AnswerTable, Memory>
    ensures { IfOk result (λ table. table ≡ map (λ runner. map without_values runner.answers) runners.now) }
{
    let mut table = AnswerTable::new(alloc);
    for runner in runners {
        table.push(row_without_values(alloc, runner.answers.as_slice())?)?;
    }
    Ok(table)
}

#[tactic(auto, using(list_laws::proofs::Maps::map_more))]
fn row_without_values(alloc: Global, answers: &[Answer]) -> Result<AnswerList, Memory>
    ensures { IfOk result (λ row. row ≡ map without_values answers.now) }
{
    let mut row = AnswerList::new(alloc);
    for answer in answers {
        row.push(answer_without_values(alloc, answer)?)?;
    }
    Ok(row)
}

fn answer_without_values(alloc: Global, answer: &Answer) -> Result<Answer, Memory>
    ensures { IfOk result (λ bare. bare ≡ without_values answer.now) }
{
    Ok(Answer {
        code: answer.code,
        pair: answer.pair,
        number: answer.number,
        values: None,
        items: items_without_values(alloc, answer.items.as_slice())?,
    })
}

#[tactic(auto, using(list_laws::proofs::Maps::map_more))]
fn items_without_values(alloc: Global, items: &[Item]) -> Result<ItemList, Memory>
    ensures { IfOk result (λ bare. bare ≡ map item_without_values items.now) }
{
    let mut bare = ItemList::new(alloc);
    for item in items {
        bare.push(item_without_values(item))?;
    }
    Ok(bare)
}

fn item_without_values(item: &Item) -> Item
    ensures { result ≡ item_without_values item.now }
{
    Item {
        id: item.id,
        code: item.code,
        values: None,
    }
}
