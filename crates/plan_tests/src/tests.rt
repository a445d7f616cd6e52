// Plans of scripts that create their datasets.
mod calls;
mod fixtures;
mod sums;
