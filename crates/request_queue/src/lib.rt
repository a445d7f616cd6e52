//! The requests that a rank has posted and not yet completed, and its attached buffer.
//!
//! The calls are those of the PnetCDF library on nonblocking and buffered requests: `ncmpi_iput_*`, `ncmpi_iget_*`,
//! `ncmpi_bput_*`, `ncmpi_wait`, `ncmpi_cancel`, `ncmpi_buffer_attach` and `ncmpi_buffer_detach`.
//!
//! A buffered put copies its values to a buffer of the user until a wait or a cancel takes the request. Here the buffer (`Attached`) owns
//! each blob by itself, so bytes that are freed serve again in whatever order they are freed; that the original keeps them as a stack is
//! no part of its interface.
#![tactic(auto)]

mod attached;
mod queue;
mod requests;
mod room;
mod taken;

pub use attached::{Attached, Ticket};
pub use queue::Queue;
pub use room::Room;
pub use taken::Taken;
