// What a run lends to the owner's steps, and what they change.
use nc_base::OwnerItem;
use ruled_line::LinePutList;

/// What the steps of an owner change beside what it holds: the file and its record count, who is told of each step, and the lines back
/// to the ranks.
#[derive(Drop)]
pub(crate) struct Outlets<'d, 'r, 't, 'b, D, T> {
    pub disk: &'d mut D,
    pub records: &'r mut u64,
    pub told: &'t mut T,
    pub back: &'b mut LinePutList<OwnerItem>,
}
