// What calls ask for: regions of a file and of memory, an attached buffer, and pending requests.
mod buffers;
mod maps;
mod queues;
mod regions;

/// What a test says where a call is refused that should not be.
const REFUSED: &str = "refused";
