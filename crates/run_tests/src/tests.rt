// One side of a run by itself, which a test drives on one thread; a run in turn; steps element by element, and orders of steps.
mod attending;
mod fixtures;
mod in_turn;
mod orders;
mod refused;
mod serving;
mod steps;
