// The files that stand behind the standard streams.
use std::fs;
use std::fs::Metadata;
use std::os::unix::fs::MetadataExt;
use std::rt::Files;

/// What descriptors 0 to 2 have open, by whatever name it was opened.
const STREAMS: [&str; 3] = ["/proc/self/fd/0", "/proc/self/fd/1", "/proc/self/fd/2"];

/// Whether a path names a file that is standard input, output or error too, be it by a link. A terminal, a pipe and a device keep no bytes
/// that could be lost, so they are no such files.
pub(crate) fn is_stream<R: Files>(rt: &R, path: &str) -> bool {
    match fs::metadata(rt, path) {
        Ok(file) => file.is_file() && is_among(rt, &file),
        Err(_) => false,
    }
}

// Whether a file is that of a stream: the device and the number there are the same.
fn is_among<R: Files>(rt: &R, file: &Metadata) -> bool {
    for stream in &STREAMS {
        if let Ok(other) = fs::metadata(rt, *stream) {
            if other.dev() == file.dev() && other.ino() == file.ino() {
                return true;
            }
        }
    }
    false
}
